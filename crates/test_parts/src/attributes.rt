//! Many attributes: what refuses the next of them meets its contract.

use crate::sets::expect;
use lol_base::Attributes;
use std::alloc::{AllocError, Global};
use std::test::Fail;

static LONG: [u8; 300] = [b'x'; 300];

/// 2,000 attributes, with values of 300 bytes.
fn many(alloc: Global) -> Result<Attributes, AllocError> {
    let mut attributes = Attributes::new(alloc);
    for _attribute in 0..2_000u32 {
        attributes.push(b"class", Some(&LONG))?;
    }
    Ok(attributes)
}

fn takes_many(alloc: Global) -> Result<bool, AllocError> {
    let attributes = many(alloc)?;
    Ok(attributes.aux_info(false).attr_buffer.len() == 2_000)
}

#[test]
fn may_be_many(rt: HostRuntime) -> Result<(), Fail> {
    expect(&rt, takes_many(rt.alloc()))
}
