//! A live mirror of another game than the arena: its blocks show painting.

use crate::tests::rows::HEAD;
use crate::tests::sessions::HEAD as SESSION;
use crate::tests::stage::{WHOLE, assert_talk, joined, make_talk_of};
use paint_rules::Paint;

#[test]
fn a_match_of_painting_is_spoken_to(rt: HostRuntime) {
    let input = joined(&rt, rt.alloc(), &[HEAD, "own 0 go\nturn\nworld 0\n"]);
    let found = make_talk_of::<Paint>(&rt, rt.alloc(), &["0"], input.as_str(), WHOLE);
    let due = "ok\ncmd 0 0 0 0 go\nok\nok\nworld 0 0 1\npainter ann 1 0 e 2\nrow aa.......\nok\n";
    assert_talk(&rt, rt.alloc(), "a match of painting", &found, 0, due);
}

#[test]
fn a_session_of_painting_is_spoken_to(rt: HostRuntime) {
    let input = joined(&rt, rt.alloc(), &[SESSION, "own 0 go\nturn\nworld 0\n"]);
    let found = make_talk_of::<Paint>(&rt, rt.alloc(), &["0"], input.as_str(), WHOLE);
    let due = "ok\ncmd 0 0 0 0 go\nok\nok\nworld 0 0 1\npainter ann 1 0 e 2\nrow aa.......\nok\n";
    assert_talk(&rt, rt.alloc(), "a session of painting", &found, 0, due);
}
