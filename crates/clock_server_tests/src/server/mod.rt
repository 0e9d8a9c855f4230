//! The loop of a server, and a server over crashes.
mod crash_disk;
mod crashes;
mod loopback;
mod loops;
mod mirrors;
