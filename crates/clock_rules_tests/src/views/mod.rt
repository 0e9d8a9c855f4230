//! Pages, and the codes of replies.

mod codes;
mod example;
mod pages;
mod refusals;
mod rounds;
mod shown;

pub use shown::{Page, page_of};
