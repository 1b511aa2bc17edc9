use std::test::Fail;
use sv_linear::FormFault;

#[test]
fn faults_are_told(rt: HostRuntime) -> Result<(), Fail> {
    let fault = FormFault::Past { left: 1, right: -2 };
    let text = fault.to_string(rt.alloc())?;
    assert!(rt; text.as_str() == "the sum or product of 1 and -2 needs more than 128 bits");
    Ok(())
}
