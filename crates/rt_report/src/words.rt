ghost use Rattle.std.specs.Prelude.{◌≡◌};
ghost use Rattle.rt_report.specs.Words.{command_text, told_text};

use rt_events::Event;

/// The command of an event's line.
pub(crate) fn command_word(event: &Event) -> &'static str
    ensures { result.now ≡ command_text event.now }
{
    match event {
        Event::Produce { .. } => "produce",
        Event::Tick { .. } => "tick",
        Event::Lead { .. } => "lead",
        Event::Consume { .. } => "consume",
        Event::Force { .. } => "force",
        Event::Stop { .. } => "stop",
        Event::Build { .. } => "build",
        Event::Report { .. } => "report",
        Event::Extend { .. } => "extend",
        Event::Deliver { .. } => "deliver",
        Event::Job { .. } => "job",
        Event::Reply { .. } => "reply",
        Event::CrashServer { .. } => "crash",
        Event::CrashController { .. } => "crash",
        Event::RestartServer { .. } => "restart",
        Event::RestartController { .. } => "restart",
        Event::See { .. } => "see",
        Event::Transit { .. } => "transit",
        Event::Download { .. } => "download",
        Event::Repair { .. } => "repair",
        Event::Retain { .. } => "retain",
        Event::FaultStore { .. } => "fault",
        Event::FaultDeep { .. } => "fault",
        Event::Ask { .. } => "ask",
        Event::Route { .. } => "route",
        Event::Piece { .. } => "piece",
        Event::Answer { .. } => "answer",
        Event::ShowMeta { .. } => "show",
        Event::ShowIdeal => "show",
    }
}

/// The word with which the report of an event that happened begins.
pub(crate) fn told_word(event: &Event) -> &'static str
    ensures { result.now ≡ told_text event.now }
{
    match event {
        Event::Produce { .. } => "produced",
        Event::Tick { .. } => "now",
        Event::Lead { .. } => "lead",
        Event::Consume { .. } => "consumed",
        Event::Force { .. } => "forced",
        Event::Stop { .. } => "stopped",
        Event::Build { .. } => "built",
        Event::Report { .. } => "sent",
        Event::Extend { .. } => "sent",
        Event::Deliver { .. } => "reply",
        Event::Job { .. } => "step",
        Event::Reply { .. } => "took",
        Event::CrashServer { .. } => "down",
        Event::CrashController { .. } => "down",
        Event::RestartServer { .. } => "up",
        Event::RestartController { .. } => "up",
        Event::See { .. } => "seen",
        Event::Transit { .. } => "moved",
        Event::Download { .. } => "loaded",
        Event::Repair { .. } => "repair",
        Event::Retain { .. } => "retain",
        Event::FaultStore { .. } => "fault",
        Event::FaultDeep { .. } => "fault",
        Event::Ask { .. } => "asked",
        Event::Route { .. } => "routed",
        Event::Piece { .. } => "piece",
        Event::Answer { .. } => "answer",
        Event::ShowMeta { .. } => "node",
        Event::ShowIdeal => "node",
    }
}
