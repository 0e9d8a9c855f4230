//! Documents of small set-ups, for tests.

/// One product A of two blocks, and the bidders X and Y.
pub const ONE_PRODUCT: &str = r#"{
  "version": 1,
  "requirement": 95,
  "operator": "OPERATOROPERATOR",
  "products": [
    {"name": "A", "units": 1, "supply": 2, "cap": 2, "opening": 100}
  ],
  "bidders": [
    {"name": "X", "token": "XXXXXXXXXXXXXXXX", "eligibility": 10},
    {"name": "Y", "token": "YYYYYYYYYYYYYYYY", "eligibility": 10}
  ]
}"#;

/// Two products A and B of two blocks each, and the bidders X, Y and Z.
pub const TWO_PRODUCTS: &str = r#"{
  "version": 1,
  "requirement": 100,
  "operator": "OPERATOROPERATOR",
  "products": [
    {"name": "A", "units": 1, "supply": 2, "cap": 2, "opening": 100},
    {"name": "B", "units": 1, "supply": 2, "cap": 2, "opening": 100}
  ],
  "bidders": [
    {"name": "X", "token": "XXXXXXXXXXXXXXXX", "eligibility": 2},
    {"name": "Y", "token": "YYYYYYYYYYYYYYYY", "eligibility": 2},
    {"name": "Z", "token": "ZZZZZZZZZZZZZZZZ", "eligibility": 1}
  ]
}"#;

/// Four products with opening prices at the edges of rounding and of the highest price.
pub const PRICE_EDGES: &str = r#"{
  "version": 1,
  "requirement": 95,
  "operator": "OPERATOROPERATOR",
  "products": [
    {"name": "A", "units": 1, "supply": 2, "cap": 2, "opening": 101},
    {"name": "B", "units": 1, "supply": 2, "cap": 2, "opening": 110},
    {"name": "C", "units": 1, "supply": 2, "cap": 2, "opening": 1},
    {"name": "D", "units": 1, "supply": 2, "cap": 2, "opening": 1000000000000}
  ],
  "bidders": [
    {"name": "X", "token": "XXXXXXXXXXXXXXXX", "eligibility": 10},
    {"name": "Y", "token": "YYYYYYYYYYYYYYYY", "eligibility": 10}
  ]
}"#;

/// Like [`TWO_PRODUCTS`], in version 2: clock prices of A are multiples of 25 dollars.
pub const GRANULES_AND_INCREMENTS: &str = r#"{
  "version": 2,
  "limit": 100,
  "requirement": 100,
  "operator": "OPERATOROPERATOR",
  "products": [
    {"name": "A", "units": 1, "supply": 2, "cap": 2, "opening": 100, "granule": 25},
    {"name": "B", "units": 1, "supply": 2, "cap": 2, "opening": 100, "granule": 1}
  ],
  "bidders": [
    {"name": "X", "token": "XXXXXXXXXXXXXXXX", "eligibility": 2},
    {"name": "Y", "token": "YYYYYYYYYYYYYYYY", "eligibility": 2},
    {"name": "Z", "token": "ZZZZZZZZZZZZZZZZ", "eligibility": 1}
  ]
}"#;

/// Two products A and B of four blocks each, and the bidders X and Z. From round 2, their requested
/// activity may be 125 percent of their eligibility.
pub const ACTIVITY_LIMIT: &str = r#"{
  "version": 2,
  "limit": 125,
  "requirement": 100,
  "operator": "OPERATOROPERATOR",
  "products": [
    {"name": "A", "units": 2, "supply": 4, "cap": 4, "opening": 100, "granule": 1},
    {"name": "B", "units": 2, "supply": 4, "cap": 4, "opening": 100, "granule": 1}
  ],
  "bidders": [
    {"name": "X", "token": "XXXXXXXXXXXXXXXX", "eligibility": 8},
    {"name": "Z", "token": "ZZZZZZZZZZZZZZZZ", "eligibility": 8}
  ]
}"#;

/// Like [`ONE_PRODUCT`], but opening at the highest price.
pub const AT_THE_HIGHEST: &str = r#"{"version":1,"requirement":95,"operator":"OPERATOROPERATOR",
"products":[{"name":"A","units":1,"supply":2,"cap":2,"opening":1000000000000}],
"bidders":[{"name":"X","token":"XXXXXXXXXXXXXXXX","eligibility":10},
{"name":"Y","token":"YYYYYYYYYYYYYYYY","eligibility":10}]}"#;

/// Like [`ONE_PRODUCT`], but one increment of 1 percent leads to the price just below the highest.
pub const BELOW_THE_HIGHEST: &str = r#"{"version":1,"requirement":95,"operator":"OPERATOROPERATOR",
"products":[{"name":"A","units":1,"supply":2,"cap":2,"opening":990099009900}],
"bidders":[{"name":"X","token":"XXXXXXXXXXXXXXXX","eligibility":10},
{"name":"Y","token":"YYYYYYYYYYYYYYYY","eligibility":10}]}"#;

/// Two products A and B of four blocks each, the bidders X and Z, and an activity limit of 100
/// percent.
pub const NO_HIGHER_LIMIT: &str =
    r#"{"version":2,"limit":100,"requirement":100,"operator":"OPERATOROPERATOR",
"products":[{"name":"A","units":2,"supply":4,"cap":4,"opening":100,"granule":1},
{"name":"B","units":2,"supply":4,"cap":4,"opening":100,"granule":1}],
"bidders":[{"name":"X","token":"XXXXXXXXXXXXXXXX","eligibility":8},
{"name":"Z","token":"ZZZZZZZZZZZZZZZZ","eligibility":8}]}"#;

/// Two products A and B of seven blocks each, the bidders X and Z of eligibility 10, and an
/// activity limit of 125 percent.
pub const SEVEN_BLOCKS: &str =
    r#"{"version":2,"limit":125,"requirement":100,"operator":"OPERATOROPERATOR",
"products":[{"name":"A","units":1,"supply":7,"cap":7,"opening":100,"granule":1},
{"name":"B","units":1,"supply":7,"cap":7,"opening":100,"granule":1}],
"bidders":[{"name":"X","token":"XXXXXXXXXXXXXXXX","eligibility":10},
{"name":"Z","token":"ZZZZZZZZZZZZZZZZ","eligibility":10}]}"#;
