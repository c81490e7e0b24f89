//! A report that is read as a base. The worked cases in scripts test which texts are bases.
use crate::effects::expect_pairs;
use crate::fixtures::id;
use epx_report::{Base, BaseFault, read_base};
use std::alloc::Global;
use std::test::Fail;

/// A report of one instance that was done before and two that are executed.
const REPORT: &str = r#"["executed",2,"waiting",0,"components",2]
["done",0,0]
["reply",0,1,"ok",[]]
["reply",0,2,"ok",[5]]
["store","a",5]
"#;

fn base_of(alloc: Global, text: &str) -> Result<Base, Fail> {
    match read_base(alloc, text.as_bytes()) {
        Ok(base) => Ok(base),
        Err(BaseFault::Memory) => Err(Fail::from("out of memory")),
        Err(_) => Err(Fail::from("no base")),
    }
}

#[test]
fn a_report_is_read(rt: HostRuntime) -> Result<(), Fail> {
    let base = base_of(rt.alloc(), REPORT)?;
    let wanted = [id(0, 0), id(0, 1), id(0, 2)];
    assert!(rt; base.done() == wanted.as_slice());
    let (done, store) = base.into_parts();
    assert!(rt; done.as_slice() == wanted.as_slice());
    expect_pairs(&rt, &store, &[("a", 5)])?;
    Ok(())
}

#[test]
fn the_first_bad_line_of_a_base_is_named(rt: HostRuntime) -> Result<(), Fail> {
    match read_base(rt.alloc(), b"") {
        Err(BaseFault::Memory) => return Err(Fail::from("out of memory")),
        read => assert!(rt; read.err() == Some(BaseFault::Bad { line: 1 })),
    }
    Ok(())
}
