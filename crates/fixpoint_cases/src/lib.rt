// Cases of settling: programs with the sweeps that their tables take, and cells of what they settle to.
#![tactic(auto)]

#[cfg(test)]
mod lists;
#[cfg(test)]
mod settled;
#[cfg(test)]
mod support;
