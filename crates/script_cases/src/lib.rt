// Cases of scripts: what the job `run` prints, and the refusal that it ends with.
#![tactic(auto)]

#[cfg(test)]
mod scripts;
#[cfg(test)]
mod support;
