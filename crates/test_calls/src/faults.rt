//! Faults that print: no reply has these texts.

use pfl_base::{BadPacket, DeviceFault};
use pfl_edits::NoMemory;
use pfl_queue::QueueFault;
use pfl_rules::RuleFault;
use pfl_table::PutFault;
use pfl_wire::FrameFault;
use std::test::Fail;

#[test]
fn faults_print(rt: HostRuntime) -> Result<(), Fail> {
    let texts = format!(in rt.alloc();
        "{}; {DeviceFault}; {NoMemory}; {}; {}; {}; {}; {}; {} {} {}",
        BadPacket::Family,
        RuleFault::ZeroMax,
        PutFault::Full,
        PutFault::NameInUse,
        PutFault::WireInUse,
        PutFault::StackInUse,
        FrameFault::Length,
        QueueFault::QueueFull,
        QueueFault::CountFull
    )?;
    assert!(rt;
        texts.as_str()
            == "ends of two families; a call of a device failed; no memory; a limit of no states; the table is full; the name is in use; the wire key is in use; the stack key is in use; Length QueueFull CountFull"
    );
    Ok(())
}
