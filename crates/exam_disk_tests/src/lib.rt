//! Commands of the program, and requests to its server, over files that fail and machines that stop, over files on the
//! disk and over sockets. They stand beside the crates that they run, so that the gate proves these once.
#![tactic(auto)]

#[cfg(test)]
mod tests;
