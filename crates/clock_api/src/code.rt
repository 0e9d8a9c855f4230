ghost use Rattle.std.specs.Prelude.{◌≡◌, Some};
ghost use Rattle.http.specs.StatusCode.{reason_phrase};
ghost use Rattle.clock_api.specs.Codes.{status_of, code_text};

use http::StatusCode;

/// The result of a request: done, or why it was refused.
///
/// The codes are our own. Their statuses are those of HTTP (RFC 9110; 431 is of RFC 6585). Codes
/// are sorted by status, and those of one status are in the order of the checks.
#[derive(Clone, Copy, Debug, PartialEq, Eq)]
pub enum Code {
    /// The request was done. No page shows this code.
    Done,
    /// The head is not of the grammar of HTTP.
    BadHead,
    /// There are several `content-length` lines, or its value is not digits only.
    BadLength,
    /// The input ended before the head or the body was whole.
    CutShort,
    /// The body is not JSON.
    BadJson,
    /// The route needs a token, and the request has no valid one.
    Token,
    /// The route is the operator's and the token a bidder's, or the reverse.
    Role,
    /// The path has no page.
    NoPage,
    /// The round has no results: it is not closed, or does not exist.
    NoRound,
    /// The page does not have this method.
    Method,
    /// The auction has ended.
    Ended,
    /// The request is for another round than the current one, which the page shows.
    WrongRound,
    /// The body has more than 1,048,576 bytes.
    LongBody,
    /// The body is JSON, but not of the required shape.
    Shape,
    /// The sheet has too many bids.
    TooMany,
    /// A bid is for a product that is not in the set-up. The page shows the bid's index in the
    /// list, as it does for the next five codes.
    UnknownProduct,
    /// A bid's price is below the start-of-round price or above the clock price.
    PriceRange,
    /// A bid's quantity is above the product's cap.
    OverCap,
    /// An earlier bid for the product has this price or a higher one.
    PriceOrder,
    /// A bid does not continue in the direction of its chain.
    MixedDirection,
    /// A bid to maintain demand is not at the clock price.
    KeepPrice,
    /// The sheet's requested activity is above the limit.
    OverActivity,
    /// An increment is out of range, or there is not one for each product.
    Increment,
    /// The closing has too many tie-breaking numbers.
    TooManyTies,
    /// A tie-breaking number is for a bidder or product that is not in the set-up. The page shows
    /// its index in the list, as it does for the next code.
    TieRange,
    /// An earlier tie-breaking number is for the same bidder and product.
    TieRepeated,
    /// A product's next clock price would be too high. The page shows the product's number.
    PriceLimit,
    /// The head has more than 16,384 bytes or more than 64 header lines.
    LongHead,
    /// The head has a `transfer-encoding` line.
    Coding,
    /// Out of memory.
    Memory,
}

impl Code {
    /// Returns the status of replies with this code. Allocates nothing.
    pub fn status(&self) -> u16
        ensures { result ≡ status_of self.now }
    {
        self.row().0.as_u16()
    }

    /// Returns the reason phrase of the status. Allocates nothing.
    pub fn reason(&self) -> &'static str
        ensures { Some result.now ≡ reason_phrase (status_of self.now) }
    {
        self.row().0.canonical_reason().unwrap_or("")
    }

    /// Returns the code as pages show it. Allocates nothing.
    pub fn text(&self) -> &'static str
        ensures { result.now ≡ code_text self.now }
    {
        self.row().1
    }

    /// Returns the status, as the type of the crate http, and the code as pages show it.
    fn row(&self) -> (StatusCode, &'static str)
        ensures status { result.0 ≡ status_of self.now }
        ensures text { result.1.now ≡ code_text self.now }
    {
        match self {
            Code::Done => (StatusCode::OK, "done"),
            Code::BadHead => (StatusCode::BAD_REQUEST, "bad_head"),
            Code::BadLength => (StatusCode::BAD_REQUEST, "bad_length"),
            Code::CutShort => (StatusCode::BAD_REQUEST, "cut_short"),
            Code::BadJson => (StatusCode::BAD_REQUEST, "bad_json"),
            Code::Token => (StatusCode::UNAUTHORIZED, "token"),
            Code::Role => (StatusCode::FORBIDDEN, "role"),
            Code::NoPage => (StatusCode::NOT_FOUND, "no_page"),
            Code::NoRound => (StatusCode::NOT_FOUND, "no_round"),
            Code::Method => (StatusCode::METHOD_NOT_ALLOWED, "method"),
            Code::Ended => (StatusCode::CONFLICT, "ended"),
            Code::WrongRound => (StatusCode::CONFLICT, "wrong_round"),
            Code::LongBody => (StatusCode::PAYLOAD_TOO_LARGE, "long_body"),
            Code::Shape => (StatusCode::UNPROCESSABLE_ENTITY, "shape"),
            Code::TooMany => (StatusCode::UNPROCESSABLE_ENTITY, "too_many"),
            Code::UnknownProduct => (StatusCode::UNPROCESSABLE_ENTITY, "unknown_product"),
            Code::PriceRange => (StatusCode::UNPROCESSABLE_ENTITY, "price_range"),
            Code::OverCap => (StatusCode::UNPROCESSABLE_ENTITY, "over_cap"),
            Code::PriceOrder => (StatusCode::UNPROCESSABLE_ENTITY, "price_order"),
            Code::MixedDirection => (StatusCode::UNPROCESSABLE_ENTITY, "mixed_direction"),
            Code::KeepPrice => (StatusCode::UNPROCESSABLE_ENTITY, "keep_price"),
            Code::OverActivity => (StatusCode::UNPROCESSABLE_ENTITY, "over_activity"),
            Code::Increment => (StatusCode::UNPROCESSABLE_ENTITY, "increment"),
            Code::TooManyTies => (StatusCode::UNPROCESSABLE_ENTITY, "too_many_ties"),
            Code::TieRange => (StatusCode::UNPROCESSABLE_ENTITY, "tie_range"),
            Code::TieRepeated => (StatusCode::UNPROCESSABLE_ENTITY, "tie_repeated"),
            Code::PriceLimit => (StatusCode::UNPROCESSABLE_ENTITY, "price_limit"),
            Code::LongHead => (StatusCode::REQUEST_HEADER_FIELDS_TOO_LARGE, "long_head"),
            Code::Coding => (StatusCode::NOT_IMPLEMENTED, "coding"),
            Code::Memory => (StatusCode::SERVICE_UNAVAILABLE, "memory"),
        }
    }
}
