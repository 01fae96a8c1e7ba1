// Lists of jobs. A job of a name that is present is not put in its place.
use crate::fill::fill;
use crate::job::{Job, Kind};

const BLANK: Job = Job {
    kind: Kind::Read,
    name: [0, 0],
};

const AB: Job = Job {
    kind: Kind::Read,
    name: *b"ab",
};

const BA: Job = Job {
    kind: Kind::Write(1),
    name: *b"ba",
};

const BA_AGAIN: Job = Job {
    kind: Kind::Write(2),
    name: *b"ba",
};

#[test]
fn a_name_is_taken_once(rt: HostRuntime) {
    let mut places = [BA_AGAIN; 3];
    assert_eq!(rt; fill(&mut places, &[BA, AB, BA_AGAIN]), 2);
    assert_eq!(rt; places, [AB, BA, BLANK]);
}
