// Edges of the numeric domains, run.
#![tactic(auto)]

#[cfg(test)]
mod tests;
