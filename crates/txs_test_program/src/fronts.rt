//! Each public call once, with ample memory, through the crates that offer it to callers outside the program. What a call
//! answers is compared, since no contract says that it finds memory.

mod actors;
mod code;
mod copies;
mod frames;
mod mail;
mod optimised;
mod program;
mod replies;
mod runs;
mod scripts;
mod store;
mod values;
