//! Steps of a small office over files in memory that fail, through all layers, as texts that are played; command lines
//! over files on the disk; connections over sockets.
mod connections;
mod disks;
mod lines;
mod logs;
mod refusing;
mod stopping;
