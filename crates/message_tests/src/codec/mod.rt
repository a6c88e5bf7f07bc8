//! Tests of the codec and of what it stands on, by values from outside. They are the bits of
//! aligned PER, the values of messages, and the messages octet for octet.

mod bits;
mod faults;
mod replies;
mod requests;
mod values;
