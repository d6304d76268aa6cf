//! The places of a book.
use pass_book::Book;
use pass_plain::Start;
use std::test::Fail;

#[test]
fn places_are_claimed_and_given_back(rt: HostRuntime) -> Result<(), Fail> {
    let alloc = rt.alloc();
    let start = Start {
        ceiling: 0,
        files: Vec::new(alloc),
        apps: Vec::new(alloc),
    };
    let (mut book, _desks, _vault) = Book::open(alloc, &start, 1, 4)?;
    let first = book.claim(3).ok().ok_or("three of four")?;
    match book.claim(2) {
        Ok(_) => assert!(rt; false),
        Err(full) => assert!(rt; full.left == 1 && full.need == 2),
    }
    book.give_back(first);
    assert!(rt; book.claim(2).is_ok());
    Ok(())
}
