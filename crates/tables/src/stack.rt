// A stack of node numbers.
ghost use Rattle.std.specs.Prelude.{◌≡◌, ◌<◌, ◌≤◌, [], ◌∷◌, length, reverse};
ghost use Rattle.tables.specs.Steps.{Steps};

use arrayvec::ArrayVec;
use records::limits::MAX_EDGES;
use std::marker::Model;

// Room for each of 4,096 edges from both of its ends, and one more.
const ROOM: usize = 2 * MAX_EDGES + 1;

#[derive(Drop)]
pub struct Stack {
    items: ArrayVec<u16, ROOM>,
}

// A clause sees the numbers, the top first. That there are no more than there is room for is said by `as_slice` and `pop`.
impl Model for Stack {
    ghost use Rattle.std.specs.Prelude.{ℕ, ◌≤◌, List, reverse};
    ghost use Rattle.arrayvec.specs.ArrayVec.{array_vec_len};

    ghost Value = { List ℕ };

    ghost view = { λ s. reverse s.items.items };

    ghost invariant = { λ s. array_vec_len s.items ≤ 8193 };
}

impl Stack {
    pub fn new() -> Self
        ensures { result ≡ [] }
    {
        Stack {
            items: ArrayVec::new(),
        }
    }

    pub fn push(&mut self, x: u16)
        requires { length self.old < 8193 }
        ensures { self.new ≡ x ∷ self.old }
    {
        self.items.push(x);
    }

    pub fn pop(&mut self) -> Option<u16>
        ensures next { Steps self.old result self.new }
        ensures few { length self.old ≤ 8193 }
    {
        self.items.pop()
    }

    // The numbers, the lowest first.
    pub fn as_slice(&self) -> &[u16]
        ensures value { result.now ≡ reverse self.now }
        ensures few { length self.now ≤ 8193 }
    {
        self.items.as_slice()
    }
}
