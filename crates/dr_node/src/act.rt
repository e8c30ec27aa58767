ghost use Rattle.dr_node.specs.Acting.{IsAtMostOneStep};

use dr_timeline::Timeline;

/// What is done to the timeline of a node while its lock is held: at most one step that seals, plans or commits. Its answer may
/// hold no reference to the timeline.
pub trait Act {
    ghost use Rattle.dr_schema.specs.declared.schema_fields.SchemaFields.{SchemaFields};
    ghost use Rattle.dr_cuts.specs.State.{State};

    /// What the act answers.
    type Answer;

    /// What has to hold of the act for a schema.
    ghost needs: { Self → SchemaFields → Type 0 };

    /// What the act answers on a timeline, and the timeline after it.
    ghost does: { Self → State → Self.Answer → State → Type 0 };

    /// Makes the act.
    fn act(self, timeline: &mut Timeline) -> Self::Answer
        requires { needs self timeline.old.schema }
        ensures does { does self timeline.old result timeline.new }
        ensures step { IsAtMostOneStep timeline.old timeline.new };
}
