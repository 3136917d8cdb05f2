// Filling the front of a table.
ghost use Rattle.std.specs.Prelude.{◌≡◌, ◌≤◌, length};
ghost use Rattle.tables.specs.Filled.{filled};

// Writes a value into the first entries. A slice's own `fill` clones, and asks that a clone cannot fail, which a copy type does
// not say.
pub fn fill<V: Copy>(table: &mut [V], count: usize, value: V)
    requires { count ≤ length table.old }
    ensures { table.new ≡ filled count value table.old }
{
    for entry in &mut table[..count] {
        *entry = value;
    }
}
