use acpi_values::width::Width;
use name_kinds::known::known_of;
use region_checks::check::region_faults;
use std::test::Fail;

#[test]
#[tactic(auto, unfolding(asl_tree::specs::View::trees_of))]
fn an_empty_block_has_no_fault(rt: HostRuntime) -> Result<(), Fail> {
    let alloc = rt.alloc();
    let messages = region_faults(alloc, Width::W64, &known_of(alloc, &[])?)?;
    assert_eq!(rt; messages.len(), 0);
    Ok(())
}
