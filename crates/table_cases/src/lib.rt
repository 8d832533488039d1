// Cases of tables and cells as text.
#![tactic(auto)]

#[cfg(test)]
mod cells_as_text;
#[cfg(test)]
mod tables;
