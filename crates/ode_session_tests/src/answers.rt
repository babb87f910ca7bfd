//! The order of answers: bytes; the session; syntax; depth; place; what another session holds; the rest.
use crate::trial::says;
use ode_host::Status;
use std::alloc::Global;
use std::process::Abort;

// A piece of a script is refused so.
fn refused(rt: &impl Abort, alloc: Global, script: &str, text: &str) {
    says(rt, alloc, script, text, Status::Refused);
}

#[test]
fn bytes_come_first(rt: HostRuntime) {
    refused(&rt, rt.alloc(), "$ begin;", "refused 1 bad byte 0\n");
    refused(&rt, rt.alloc(), "1 begin $;", "refused 1 bad byte 8\n");
}

#[test]
fn a_piece_names_its_session(rt: HostRuntime) {
    for script in [
        "begin;",
        "0: begin;",
        "65: begin;",
        "1 begin;",
        ": begin;",
        "#1: begin;",
    ] {
        refused(&rt, rt.alloc(), script, "refused 1 no session\n");
    }
}

#[test]
fn a_session_comes_before_syntax(rt: HostRuntime) {
    refused(&rt, rt.alloc(), "begin begin;", "refused 1 no session\n");
    refused(&rt, rt.alloc(), "1: begin begin;", "refused 1 syntax 9\n");
    says(&rt, rt.alloc(), "64:;", "", Status::Ok);
}

#[test]
fn no_class_is_changed_by_a_session(rt: HostRuntime) {
    refused(
        &rt,
        rt.alloc(),
        "1: change class P { int m; };",
        "refused 1 syntax 10\n",
    );
}

#[test]
fn place_comes_before_what_another_session_holds(rt: HostRuntime) {
    refused(
        &rt,
        rt.alloc(),
        "1: begin;\n1: begin;\n1: class Q { int n; };\n1: abort;\n",
        "refused 2 in transaction\nrefused 3 in transaction\ntx 4 aborted asked\n",
    );
    refused(
        &rt,
        rt.alloc(),
        "1: commit;\n2: abort;\n",
        "refused 1 no transaction\nrefused 2 no transaction\n",
    );
}

#[test]
fn what_another_session_holds_comes_before_the_rest(rt: HostRuntime) {
    refused(
        &rt,
        rt.alloc(),
        "1: begin;\n1: #1.a();\n2: #1.b();\n2: #2.b();\n1: commit;\n2: #1.b();\n",
        "busy 3 session 1 on #1\nrefused 4 unknown name b\ntx 4 committed\nrefused 6 unknown name b\n",
    );
}
