//! The texts that `--help` prints after the options.

/// The help of the program.
pub static PROGRAM_HELP: &str = "\
`prices`, `opening` and `replay` read a document from standard input: `clock_auction prices < FILE`.
`serve`, `journal` and `audit` read the files that their options name.
With no arguments, the program runs `prices --increment 10`.

Exit status:
  0  Success. The answer is on standard output.
  1  A fault. Standard error has one line `fault: WORDS`. Standard output is then empty, unless a write
     failed partway, or `serve` had already printed its first lines.
  2  Help or the version was printed, or the arguments were invalid. Standard error has the text.";

/// The help of `prices`.
pub static PRICES_HELP: &str = "\
Reads a set-up document of version 1 or 2 from standard input.
Prints a line `NAME OPENING CLOCK` for each product: its name, its opening price and the clock price of
round 2, in dollars. CLOCK is `-` if it would exceed the highest price, 1000000000000.

Exit status: 0, or 1 with a line such as `fault: setup_not_json`, `fault: setup_range cap 0` or `fault: input`.

Example:
  clock_auction prices --increment 25 < examples/one_product.json
  A 100 125";

/// The help of `opening`.
pub static OPENING_HELP: &str = "\
Reads an opening document from standard input: a set-up, the demands of round 1 and an increment.
Prints `round 1`, and a line `NAME START CLOCK POSTED DEMAND NEXT` for each product: its start-of-round,
clock and posted price, its aggregate demand, and the clock price of round 2. DEMAND is `-` unless it
exceeds supply. NEXT is `-` if the auction ends.

Exit status: 0, or 1 with a line such as `fault: shape`, `fault: demand 0 0` or `fault: price_limit 0`.

Example:
  clock_auction opening < examples/opening.json
  round 1
  A 100 100 100 3 110";

/// The help of `replay`.
pub static REPLAY_HELP: &str = "\
Reads a replay document from standard input: a set-up, a script for each bidder, and the closings in order.
Prints each round as `opening` does, then a line `won NAME DEMAND .. DEMAND PAY` for each bidder: how many
blocks of each product it won, and what it pays in dollars.

Exit status: 0, or 1 with a line such as `fault: scripts`, `fault: limits 0 0`, `fault: refused 0 1 over_cap`,
`fault: closing 1 increment` or `fault: closings_spent`.

Example:
  clock_auction replay < examples/rehearsal.json
  round 1
  North 1000 1000 1000 8 1100
  ..
  won Dogwood 1 0 2 2980";

/// The help of `serve`.
pub static SERVE_HELP: &str = "\
Reads a set-up document of version 1 or 2 from its file, and listens at the port of 127.0.0.1.
Prints `ready PORT` when it listens. Serves connections one after the other, one request each, and ends
with status 0 after the last. A broken connection counts, and affects no other.

With `--journal`, each accepted sheet and closing is on the disk before its reply is sent, and a server
restarted with both files resumes where the last one ended, even after a crash. Such a server also prints
`journal N HEX` before `ready PORT`: the number of logged requests, and the last digest. After each closing
it prints `closed ROUND HEX`. Without `--journal`, nothing is stored.

With `--mirror` too, each of these is on the disks of both files before its reply is sent. A start continues
from the longer file, and brings the other up to it, which may be new, empty or shorter. If neither file is a
prefix of the other, it ends with `fault: journal_differs N`. N is the first byte that differs.

Exit status: 0, or 1 with a line such as `fault: file`, `fault: setup_shape`, `fault: bind` or `fault: accept`,
and with a journal `fault: journal`, `fault: journal_busy`, `fault: journal_unknown`, `fault: journal_setup`,
`fault: journal_damaged 56` or `fault: journal_refused 56`.

Example:
  clock_auction serve --setup examples/one_product.json --port 8105 --connections 100
  ready 8105";

/// The help of `journal`.
pub static JOURNAL_HELP: &str = "\
Reads both files, and changes neither. Prints `setup HEX` with the digest of the set-up document. Then,
for each logged request, prints a line `text NUMBER PLACE LENGTH HEX` with its number, the byte of the
file at which its record begins, its length and its digest; and then the request, byte for byte.
Ends with `journal N HEX`: the number of logged requests, and the last digest.

Exit status: 0, or 1 with a line such as `fault: file`, `fault: journal`, `fault: journal_setup` or
`fault: journal_damaged 56`.

Example:
  clock_auction journal --setup examples/one_product.json --journal auction.journal
  setup 4a05b9968e99..
  text 1 56 147 e9da526dc509..
  PUT /v1/me/bids HTTP/1.1
  ..
  journal 3 993af9f0e05e..";

/// The help of `audit`.
pub static AUDIT_HELP: &str = "\
Reads both files, and changes neither. Recounts the auction from them. Prints each closed round as `replay`
does, followed by `closed ROUND HEX` with the digest of its closing. If the auction has ended, prints
what each bidder won and pays. Ends with `journal N HEX`: the number of logged requests, and the last digest.

Exit status: 0, or 1 with a line such as `fault: file`, `fault: journal`, `fault: journal_setup`,
`fault: journal_damaged 56` or `fault: journal_refused 56`.

Example:
  clock_auction audit --setup examples/one_product.json --journal auction.journal
  round 1
  A 100 100 100 3 110
  closed 1 993af9f0e05e..
  journal 3 993af9f0e05e..";
