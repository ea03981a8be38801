//! Which nonces are a router's, and which a Map-Server's: they share one field of the messages. And how many are saved at once.

/// The last nonce of a router: its Map-Registers use 1 to 2^63 - 1.
pub const LAST_ROUTER_NONCE: u64 = FIRST_NOTICE_NONCE - 1;

/// One save of a router serves at most so many nonces.
pub const MAX_NONCE_BLOCK: u16 = 1024;

/// The first nonce of a Map-Server: its notices use 2^63 to 2^64 - 1.
pub const FIRST_NOTICE_NONCE: u64 = 0x8000_0000_0000_0000;
