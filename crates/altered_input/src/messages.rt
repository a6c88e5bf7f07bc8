//! The worked messages, by their names.

use vectors::replies::{
    ACF_900, ACF_1220, ACF_1280, ARJ, BCF, BRJ, DCF, DRJ, GCF, GRJ, IRQ, RCF_0001, RCF_0002, RIP,
    RRJ_DUPLICATE, RRJ_FULL, UCF, URJ,
};
use vectors::requests::{
    ARQ, ARQ_ANSWER, ARQ_OF_A_SECOND_CALL, BRQ, DRQ, GRQ, GRQ_OF_XX, IRR, KEEP_ALIVE, RRQ_101,
    RRQ_102, RRQ_109_101, URQ,
};

/// Requests that come while two endpoints are registered.
pub const REQUESTS: [(&str, &[u8]); 9] = [
    ("GRQ", &GRQ),
    ("GRQ_OF_XX", &GRQ_OF_XX),
    ("RRQ_101", &RRQ_101),
    ("RRQ_102", &RRQ_102),
    ("RRQ_109_101", &RRQ_109_101),
    ("KEEP_ALIVE", &KEEP_ALIVE),
    ("URQ", &URQ),
    ("ARQ", &ARQ),
    ("IRR", &IRR),
];

/// Requests that come while one of the endpoints has a call.
pub const CALL_REQUESTS: [(&str, &[u8]); 5] = [
    ("ARQ_ANSWER", &ARQ_ANSWER),
    ("ARQ_OF_A_SECOND_CALL", &ARQ_OF_A_SECOND_CALL),
    ("BRQ", &BRQ),
    ("DRQ", &DRQ),
    ("URQ in a call", &URQ),
];

/// Replies, which a gatekeeper doesn't serve.
pub const REPLIES: [(&str, &[u8]); 18] = [
    ("GCF", &GCF),
    ("GRJ", &GRJ),
    ("RCF_0001", &RCF_0001),
    ("RCF_0002", &RCF_0002),
    ("RRJ_FULL", &RRJ_FULL),
    ("RRJ_DUPLICATE", &RRJ_DUPLICATE),
    ("UCF", &UCF),
    ("URJ", &URJ),
    ("ACF_900", &ACF_900),
    ("ACF_1220", &ACF_1220),
    ("ACF_1280", &ACF_1280),
    ("ARJ", &ARJ),
    ("BCF", &BCF),
    ("BRJ", &BRJ),
    ("DCF", &DCF),
    ("DRJ", &DRJ),
    ("RIP", &RIP),
    ("IRQ", &IRQ),
];
