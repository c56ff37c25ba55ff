// Tests of values of `imago_access` that no call of a disk makes, and of comparisons of its types.
use imago_access::{Format, Mapping, PreallocateMode, PreparedDataMapping, ShallowMapping};
use std::process::Abort;
use std::test::Fail;

#[test]
fn only_the_end_is_the_end(rt: HostRuntime) -> Result<(), Fail> {
    let mapped = Mapping::Raw {
        depth: 2,
        storage: 1,
        offset: 512,
        writable: true,
    };
    let barred = Mapping::Special {
        depth: 1,
        offset: 512,
    };
    assert!(rt; Mapping::Eof.is_eof());
    assert!(rt; !mapped.is_eof());
    assert!(rt; !barred.is_eof());
    assert!(rt; !Mapping::Zero { explicit: true }.is_eof());
    assert!(rt; Mapping::Zero { explicit: true } != Mapping::Zero { explicit: false });
    Ok(())
}

#[test]
fn prepared_mappings_hold_what_they_are_given(rt: HostRuntime) -> Result<(), Fail> {
    let existing: PreparedDataMapping<u8> = PreparedDataMapping::existing(1, 65_536, 512);
    assert_eq!(rt; existing.storage(), 1);
    assert_eq!(rt; existing.offset(), 65_536);
    assert_eq!(rt; existing.length(), 512);
    assert!(rt; existing.is_nonblocking());
    assert!(rt; existing.into_state().is_none());
    let prepared = PreparedDataMapping::to_commit(2, 1024, 3, 77_u8);
    assert_eq!(rt; prepared.storage(), 2);
    assert_eq!(rt; prepared.offset(), 1024);
    assert_eq!(rt; prepared.length(), 3);
    assert!(rt; !prepared.is_nonblocking());
    assert_eq!(rt; prepared.into_state(), Some(77));
    Ok(())
}

#[test]
fn kinds_are_told_apart(rt: HostRuntime) -> Result<(), Fail> {
    assert!(rt; Format::Raw != Format::Qcow2);
    assert!(rt; Format::Qcow2 != Format::Vmdk);
    assert!(rt; PreallocateMode::FormatAllocate != PreallocateMode::FullAllocate);
    assert!(rt; ShallowMapping::Zero { explicit: true } != ShallowMapping::Eof);
    Ok(())
}
