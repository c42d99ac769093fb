//! Objects around the program, in memory and of the system.
mod memory;
mod system;
