// Lines, files, printed lines, and what the programs read and print, by example.
#![tactic(auto)]

#[cfg(test)]
mod files;
#[cfg(test)]
mod lines;
#[cfg(test)]
mod prints;
#[cfg(test)]
mod programs;
