// Examples that are run: the graph's limits and lists, its order, neighbors past disabled nodes, sealed graphs,
// analyses, strands, sheets and reports.
#![tactic(auto)]

#[cfg(test)]
mod analyses;
#[cfg(test)]
mod limits;
#[cfg(test)]
mod orders;
#[cfg(test)]
mod past_disabled;
#[cfg(test)]
mod reports;
#[cfg(test)]
mod sealed;
#[cfg(test)]
mod sheets;
#[cfg(test)]
mod strands;
