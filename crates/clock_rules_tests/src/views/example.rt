//! A page, as a library's caller writes it.

use crate::comparing::assert_is;
use clock_fixtures::ONE_PRODUCT;
use clock_setup::read_setup;
use clock_views::status_page;
use std::test::Fail;

#[test]
fn a_page_in_three_lines(rt: HostRuntime) -> Result<(), Fail> {
    let setup = read_setup(rt.alloc(), ONE_PRODUCT.as_bytes())?;
    let page = status_page(rt.alloc(), &setup, 1, false);
    drop(setup);
    let expected = b"{\"ended\":false,\"round\":1,\"version\":1}";
    assert_is(&rt, page?.as_slice(), expected.as_slice());
    Ok(())
}
