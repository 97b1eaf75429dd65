//! Event types of simpleperf.
ghost use Rattle.std.specs.Prelude.{◌≡◌};

/// An event type from the meta info of a simpleperf recording.
#[derive(Drop)]
pub struct SimplePerfEventType {
    /// The event's name.
    pub name: String,
    /// The type of the event, as in `perf_event_attr`.
    pub type_: u64,
    /// The event within its type, as in `perf_event_attr`.
    pub config: u64,
}

impl SimplePerfEventType {
    /// Creates an event type with a name, and the type and config of its `perf_event_attr`.
    pub fn new(name: String, type_: u64, config: u64) -> SimplePerfEventType
        ensures name { result.name ≡ name }
        ensures event_type { result.type_ ≡ type_ }
        ensures config { result.config ≡ config }
    {
        SimplePerfEventType {
            name,
            type_,
            config,
        }
    }
}
