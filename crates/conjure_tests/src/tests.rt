use crate::models::is_model;
use crate::specifications::{
    are_lettings, is_domain, is_printed, is_representation, is_specification,
};
use std::test::Fail;

#[test]
fn trees_are_read_as_they_are_built_by_hand(rt: HostRuntime) -> Result<(), Fail> {
    for (what, holds) in [
        ("a specification", is_specification(rt.alloc())?),
        ("a domain", is_domain(rt.alloc())?),
        ("a representation", is_representation(rt.alloc())?),
        ("lettings", are_lettings(rt.alloc())?),
        ("a model", is_model(rt.alloc())?),
        ("a number below 0 is printed", is_printed(rt.alloc())?),
    ] {
        assert!(rt; holds, "{what}");
    }
    Ok(())
}
