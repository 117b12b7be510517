//! The steps, each one atomic action on one word.
mod accounts;
mod crew;
mod durable;
mod exposed;
mod jobs;
mod look;
mod mark;
mod ring;
mod slots;
mod stop;
mod tail;
