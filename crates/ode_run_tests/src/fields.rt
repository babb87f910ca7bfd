//! What an engine and a transaction's context have between two calls: no place for points of the past.
use ode_engine::Engine;
use ode_run::Ctx;

// All fields of an engine.
fn of_engine<K>(engine: &Engine<K>) {
    let Engine {
        rest: _,
        running: _,
        quiet: _,
        counted: _,
        live: _,
        alloc: _,
        log: _,
    } = engine;
}

// All fields of a context.
fn of_context<K>(context: &Ctx<K>) {
    let Ctx {
        classes: _,
        tables: _,
        alphabets: _,
        maps: _,
        heap: _,
        overlay: _,
        deferred: _,
        text: _,
        depth: _,
        budget: _,
        bytes: _,
    } = context;
}

#[test]
fn fields(_rt: HostRuntime) {
    // Both functions above name every field, so with one more they aren't compiled.
    let _ = (of_engine::<()>, of_context::<()>);
}
