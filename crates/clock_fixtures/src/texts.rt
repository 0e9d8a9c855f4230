//! Requests that several tests send, and their replies.

/// The 147 bytes of X's request to submit a sheet.
pub const PUT: &str = "PUT /v1/me/bids HTTP/1.1\r\nauthorization: Bearer XXXXXXXXXXXXXXXX\r\n\
    content-length: 59\r\n\r\n{\"bids\":[{\"price\":100,\"product\":0,\"quantity\":2}],\"round\":1}";

/// The reply to [`PUT`].
pub const ACCEPTED: &str = "HTTP/1.1 200 OK\r\nconnection: close\r\n\
    content-length: 36\r\ncontent-type: application/json\r\n\r\n{\"accepted\":true,\"bids\":1,\"round\":1}";

/// The reply to a part of [`PUT`].
pub const CUT_SHORT: &str = "HTTP/1.1 400 Bad Request\r\nconnection: close\r\n\
    content-length: 33\r\ncontent-type: application/json\r\n\r\n{\"code\":\"cut_short\",\"status\":400}";

/// The reply to a head that does not end.
pub const LONG_HEAD: &str = "HTTP/1.1 431 Request Header Fields Too Large\r\nconnection: close\r\n\
    content-length: 33\r\ncontent-type: application/json\r\n\r\n{\"code\":\"long_head\",\"status\":431}";

/// X's request for its sheet.
pub const BIDS_OF_X: &str =
    "GET /v1/me/bids HTTP/1.1\r\nauthorization: Bearer XXXXXXXXXXXXXXXX\r\n\r\n";

/// The page while the sheet of [`PUT`] is in force: the body of that request.
pub const SHEET: &str = r#"{"bids":[{"price":100,"product":0,"quantity":2}],"round":1}"#;

/// The page while no sheet is in force.
pub const NO_SHEET: &str = r#"{"bids":null,"round":1}"#;

pub const BIDS_OF_Y: &str =
    "GET /v1/me/bids HTTP/1.1\r\nauthorization: Bearer YYYYYYYYYYYYYYYY\r\n\r\n";

/// The reply to [`BIDS_OF_X`] while no sheet is in force.
pub const NO_BIDS: &str = "HTTP/1.1 200 OK\r\nconnection: close\r\n\
    content-length: 23\r\ncontent-type: application/json\r\n\r\n{\"bids\":null,\"round\":1}";

pub const STATUS: &str = "GET /v1/status HTTP/1.1\r\n\r\n";

/// The reply to a request for the status of an auction in its first round.
pub const FIRST_ROUND: &str = "HTTP/1.1 200 OK\r\nconnection: close\r\n\
    content-length: 37\r\ncontent-type: application/json\r\n\r\n{\"ended\":false,\"round\":1,\"version\":1}";
