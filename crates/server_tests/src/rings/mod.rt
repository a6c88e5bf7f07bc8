//! Tests of the reply queues, in one thread and between two.

mod hand_over;
mod ring;
mod ring_sets;
mod two_threads;
