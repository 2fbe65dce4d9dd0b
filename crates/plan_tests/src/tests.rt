use cut::Cut;
use event::{Event, Refusal};
use plan::plan::Plan;
use std::test::Fail;

// The number of the refusal of a file, if it is refused.
fn refused(file: &[u8]) -> Option<u16> {
    Plan::new().read(file).err().map(Refusal::number)
}

// One level, one channel each way: 38 bits in five bytes. Files that break one rule, or none.
const SMALL: [(&[u8], Option<u16>); 16] = [
    (&[], Some(1)),
    (&[0x20], Some(1)),
    (&[0x20, 0x00], Some(2)),
    (&[0x00, 0x00, 0x80, 0x00], Some(3)),
    (&[0x00, 0x00, 0x80, 0x00, 0x00, 0x00], Some(3)),
    (&[0x00, 0x01, 0x80, 0x00, 0x00], Some(4)),
    (&[0x00, 0x00, 0x80, 0x00, 0x01], Some(4)),
    (&[0x00, 0x00, 0x00, 0x00, 0x00], Some(5)),
    (&[0x00, 0x00, 0x90, 0x00, 0x00], Some(6)),
    (&[0x00, 0x00, 0x80, 0x00, 0x04], Some(7)),
    (&[0x00, 0x00, 0x84, 0x00, 0x04], Some(7)),
    (&[0x00, 0x00, 0x8c, 0x00, 0x00], Some(7)),
    (&[0x00, 0x00, 0x80, 0x00, 0x00], None),
    (&[0x00, 0x00, 0x84, 0x00, 0x00], None),
    (&[0x00, 0x00, 0x88, 0x00, 0x00], None),
    (&[0x00, 0x00, 0x8c, 0x00, 0x04], None),
];

#[test]
fn small_files(rt: HostRuntime) {
    for (file, number) in SMALL {
        assert_eq!(rt; refused(file), number);
    }
}

// All ones: eight levels, 32 channels each way, 607 bytes; the spare bits are set.
#[test]
fn all_ones(rt: HostRuntime) -> Result<(), Fail> {
    let heap = rt.alloc();
    assert_eq!(rt; refused(vec![in heap; 0xff; 607]?.as_slice()), Some(4));
    assert_eq!(rt; refused(vec![in heap; 0xff; 606]?.as_slice()), Some(3));
    assert_eq!(rt; refused(vec![in heap; 0xff; 608]?.as_slice()), Some(3));
    assert_eq!(rt;
        refused(vec![in heap; 0xff; 2_000_000]?.as_slice()),
        Some(3)
    );
    Ok(())
}

// The bytes of a plan file with one output channel.
fn bytes_for(levels: usize, inputs: usize) -> usize {
    let order = levels.wrapping_mul(levels);
    let channels = inputs.wrapping_sub(levels).wrapping_add(1).wrapping_mul(3);
    let cuts = inputs.wrapping_mul(levels).wrapping_mul(18);
    16usize
        .wrapping_add(order)
        .wrapping_add(channels)
        .wrapping_add(cuts)
        .div_ceil(8)
}

// A file of zeros after its sizes has an unlawful order, and a byte more or less another length.
#[test]
fn lengths_off_by_one(rt: HostRuntime) -> Result<(), Fail> {
    let heap = rt.alloc();
    for levels in 1usize..=8 {
        for inputs in levels..=32 {
            let bytes = bytes_for(levels, inputs);
            let mut file = vec![in heap; 0u8; bytes]?;
            assert!(rt; file.len() > 4 && inputs <= 32);
            // at most 255, so the cast loses nothing, and `try_from` would answer a case that is none
            file[0] = ((levels - 1) * 32 + inputs - 1) as u8;
            assert_eq!(rt; refused(file.as_slice()), Some(5));
            let _ = file.pop();
            assert_eq!(rt; refused(file.as_slice()), Some(3));
            file.push(0)?;
            file.push(0)?;
            assert_eq!(rt; refused(file.as_slice()), Some(3));
        }
    }
    Ok(())
}

// Two levels, 0 below 1; channel 3 has level 1 and is bare at level 0.
const EXAMPLE: [u8; 22] = [
    0x23, 0x08, 0xd0, 0x41, 0, 0, 0, 0, 0, 0, 0, 0, 0, 0, 0, 0, 0, 0x04, 0, 0, 0, 0,
];

#[test]
fn example(rt: HostRuntime) {
    let mut plan = Plan::new();
    assert!(rt; plan.read(&EXAMPLE).is_ok());
    assert_eq!(rt; plan.levels(), 2);
    assert_eq!(rt; plan.inputs(), 4);
    assert_eq!(rt; plan.outputs(), 2);
    assert!(rt; plan.below(0, 1) && !plan.below(1, 0));
    assert_eq!(rt; plan.cut(3, 0), Some(Cut::Bare));
    assert_eq!(rt; refused(&EXAMPLE[0..21]), Some(3));
    // a refused file leaves the plan as it was
    assert!(rt; plan.read(&[0x20, 0x00]).is_err());
    assert_eq!(rt; plan.levels(), 2);
}

#[test]
fn sights_of_example(rt: HostRuntime) -> Result<(), Fail> {
    let mut plan = Plan::new();
    assert!(rt; plan.read(&EXAMPLE).is_ok());
    let whole = Event {
        channel: 3,
        value: 700,
    };
    let bare = Event { value: 0, ..whole };
    let absent = Event {
        channel: 4,
        value: 1,
    };
    let heap = rt.alloc();
    let below = plan.sights(heap, 0, &[whole, absent, whole])?;
    assert_eq!(rt; below.as_slice(), [bare, bare].as_slice());
    let above = plan.sights(heap, 1, &[whole, absent, whole])?;
    assert_eq!(rt; above.as_slice(), [whole, whole].as_slice());
    Ok(())
}
