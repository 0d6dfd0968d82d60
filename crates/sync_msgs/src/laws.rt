//! Laws of the definitions, each a function with nothing to do.
ghost use Rattle.sync_msgs.specs.ClientExamples.{AreWorkedClients};
ghost use Rattle.sync_msgs.specs.TextExamples.{AreWorkedClientTexts, AreWorkedServerTexts};

/// Messages folded into a client, computed by the definitions.
pub fn worked_clients()
    ensures { AreWorkedClients }
{}

/// Texts of messages, computed by the definitions both ways.
pub fn worked_texts()
    ensures server { AreWorkedServerTexts }
    ensures client { AreWorkedClientTexts }
{}
