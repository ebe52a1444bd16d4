//! Worked values, and threads that publish and read at once.
ghost use Rattle.std.specs.Prelude.{◌≡◌, ◌+◌, ◌^◌, ◌<◌, [], true, length, slice_index};
ghost use Rattle.std.specs.Thread.{IsSync};

use pfl_publish::{Overtaken, Publisher, Revision, Told, ViewerSeat, WriterSeat};
use std::alloc::Global;
use std::test::*;
use std::thread::{Threads, join};

/// Revision n has the words n, 10 n + 1, 10 n + 2 and so on up to 10 n + 7.
fn row(n: u64) -> Revision
    requires { n < 2 ^ 32 }
    ensures { slice_index result.words 0 ≡ n }
{
    let tens = 10 * n;
    Revision {
        words: [
            n,
            tens + 1,
            tens + 2,
            tens + 3,
            tens + 4,
            tens + 5,
            tens + 6,
            tens + 7,
        ],
    }
}

fn publish_next(publisher: &Publisher<(), Global>, writer: &mut WriterSeat<()>) -> Told
    requires table { writer.old.table ≡ publisher.now }
    requires room { length writer.old.list < 2 ^ 32 }
    ensures table { writer.new.table ≡ writer.old.table }
    ensures list { length writer.new.list ≡ length writer.old.list + 1 }
{
    let number = writer.number() + 1;
    publisher.publish(writer, row(number), &())
}

/// Loads the eight words of the revision that the try is at.
fn load_all(publisher: &Publisher<(), Global>, viewer: &mut ViewerSeat<()>)
    requires table { viewer.old.table ≡ publisher.now }
    requires trying { (viewer.old.trying ≡ true) × (viewer.old.held ≡ []) }
    ensures table { viewer.new.table ≡ viewer.old.table }
    ensures trying { (viewer.new.trying ≡ true) × (length viewer.new.held ≡ 8) }
{
    for i in 0..8 {
        publisher.load(viewer, i);
    }
}

#[test]
fn overtaken_by_three(rt: HostRuntime) -> Result<(), Fail> {
    let (publisher, mut writer, viewer) = Publisher::new(rt.alloc(), row(0), &())?;
    let (mut viewer, mut later) = publisher.split(viewer);
    publisher.begin(&mut viewer);
    publish_next(&publisher, &mut writer);
    publish_next(&publisher, &mut writer);
    publish_next(&publisher, &mut writer);
    load_all(&publisher, &mut viewer);
    assert!(rt; publisher.finish(&mut viewer) == Err(Overtaken { at: 0, now: 3 }));
    assert!(rt; later.floor() == 0);
    assert!(rt; publisher.read(&mut later, 1) == Ok(row(3)));
    Ok(())
}

#[test]
fn whole_after_two(rt: HostRuntime) -> Result<(), Fail> {
    let (publisher, mut writer, mut viewer) = Publisher::new(rt.alloc(), row(0), &())?;
    publisher.begin(&mut viewer);
    publish_next(&publisher, &mut writer);
    publish_next(&publisher, &mut writer);
    load_all(&publisher, &mut viewer);
    assert!(rt; publisher.finish(&mut viewer) == Ok(row(0)));
    Ok(())
}

#[test]
fn split_learn_meet_join(rt: HostRuntime) -> Result<(), Fail> {
    let (publisher, mut writer, viewer) = Publisher::new(rt.alloc(), row(0), &())?;
    let (mut one, mut two) = publisher.split(viewer);
    publish_next(&publisher, &mut writer);
    publish_next(&publisher, &mut writer);
    assert!(rt; publisher.read(&mut one, 1) == Ok(row(2)));
    assert!(rt; two.floor() == 0);
    assert!(rt; publisher.learn(&mut two, &one.told()));
    assert!(rt; two.floor() == 2);
    publish_next(&publisher, &mut writer);
    let (writer, two, number) = publisher.meet(writer, two);
    assert!(rt; number == 3);
    assert!(rt; writer.number() == 3);
    assert!(rt; publisher.join(one, two).floor() == 3);
    Ok(())
}

/// Publishes revisions 1 to 1000.
fn write_all(publisher: &Publisher<(), Global>, mut writer: WriterSeat<()>) -> WriterSeat<()>
    requires table { writer.table ≡ publisher.now }
    requires list { length writer.list ≡ 1 }
    ensures { result.table ≡ writer.table }
{
    for number in 1..1001 {
        publisher.publish(&mut writer, row(number), &());
    }
    writer
}

/// What a viewer met with in a thousand readings.
#[derive(Drop)]
struct Readings {
    viewer: ViewerSeat<()>,
    /// The numbers never fell, and each revision had the words of its number.
    good: bool,
    /// Some reading was overtaken in each of its tries.
    overtaken: bool,
}

fn read_all(publisher: &Publisher<(), Global>, mut viewer: ViewerSeat<()>, tries: u64) -> Readings
    requires { viewer.table ≡ publisher.now }
    ensures { result.viewer.table ≡ viewer.table }
{
    let mut good = true;
    let mut overtaken = false;
    let mut last = 0;
    for _ in 0..1000 {
        match publisher.read(&mut viewer, tries) {
            Ok(revision) => {
                let number = revision.words[0];
                good = good && last <= number && number <= 1000 && revision == row(number);
                last = number;
            }
            Err(_) => overtaken = true,
        }
    }
    Readings {
        viewer,
        good,
        overtaken,
    }
}

/// Lets a thread publish revisions 1 to 1000 while two others read.
fn write_and_read<R: Threads + Sync>(
    rt: &R,
    publisher: &Publisher<(), Global>,
    writer: WriterSeat<()>,
    one: ViewerSeat<()>,
    two: ViewerSeat<()>,
    tries: u64,
) -> (Readings, Readings)
    requires tables { (writer.table ≡ publisher.now) × (one.table ≡ publisher.now) × (two.table ≡ publisher.now) }
    requires list { length writer.list ≡ 1 }
    ensures { (result.0.viewer.table ≡ publisher.now) × (result.1.viewer.table ≡ publisher.now) }
{
    let (_, read) = join(
        rt,
        move || -> WriterSeat<()>
            requires { (writer.table ≡ publisher.now) × (length writer.list ≡ 1) }
        { write_all(publisher, writer) },
        move || -> (Readings, Readings)
            requires { (one.table ≡ publisher.now) × (two.table ≡ publisher.now) × IsSync R.row }
            ensures { (result.0.viewer.table ≡ publisher.entry.now) × (result.1.viewer.table ≡ publisher.entry.now) }
        { read_both(rt, publisher, one, two, tries) },
    );
    read
}

fn read_both<R: Threads + Sync>(
    rt: &R,
    publisher: &Publisher<(), Global>,
    one: ViewerSeat<()>,
    two: ViewerSeat<()>,
    tries: u64,
) -> (Readings, Readings)
    requires tables { (one.table ≡ publisher.now) × (two.table ≡ publisher.now) }
    ensures { (result.0.viewer.table ≡ publisher.now) × (result.1.viewer.table ≡ publisher.now) }
{
    join(
        rt,
        move || -> Readings
            requires { one.table ≡ publisher.now }
            ensures { result.viewer.table ≡ publisher.entry.now }
        { read_all(publisher, one, tries) },
        move || -> Readings
            requires { two.table ≡ publisher.now }
            ensures { result.viewer.table ≡ publisher.entry.now }
        { read_all(publisher, two, tries) },
    )
}

#[test]
fn one_writer_two_viewers(rt: HostRuntime) -> Result<(), Fail> {
    let (publisher, writer, viewer) = Publisher::new(rt.alloc(), row(0), &())?;
    let (one, two) = publisher.split(viewer);
    let (mut one, mut two) = write_and_read(&rt, &publisher, writer, one, two, 3);
    assert!(rt; one.good && two.good);
    assert!(rt; publisher.read(&mut one.viewer, 1) == Ok(row(1000)));
    assert!(rt; publisher.read(&mut two.viewer, 1) == Ok(row(1000)));
    Ok(())
}

/// Each overtaken try costs the writer three revisions, so of a thousand revisions there are at most 333 such tries.
#[test]
fn enough_tries_are_not_overtaken(rt: HostRuntime) -> Result<(), Fail> {
    let (publisher, writer, viewer) = Publisher::new(rt.alloc(), row(0), &())?;
    let (one, two) = publisher.split(viewer);
    let (one, two) = write_and_read(&rt, &publisher, writer, one, two, 334);
    assert!(rt; one.good && two.good);
    assert!(rt; !one.overtaken && !two.overtaken);
    Ok(())
}
