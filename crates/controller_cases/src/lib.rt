// Cases of running: programs with what a controller comes to, call by call.
#![tactic(auto)]

#[cfg(test)]
mod calls;
#[cfg(test)]
mod operators;
#[cfg(test)]
mod runs;
#[cfg(test)]
mod support;
