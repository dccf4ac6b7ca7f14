//! Laws of the definitions. The functions do nothing; each carries a theorem as its contract.

ghost use Rattle.std.specs.Prelude.{List};
ghost use Rattle.cell_values.specs.declared.topics.Topic.{Topic as OneTopic};
ghost use Rattle.cell_values.specs.declared.values.Value.{Value as OneValue};
ghost use Rattle.cell_eval.specs.Resuming.{TopicsSuffice};
ghost use Rattle.formula_parse.specs.declared.nodes.Node.{Node};
ghost use Rattle.workbook.specs.Evaluation.{World};

/// Of topics that each have a value, finitely many suffice for a formula: whichever topics are known by these values,
/// it needs no other, and where it comes to a value or a call, it comes to the same with every topic known.
pub fn sufficient_topics()
    ensures { (world : World) (tree : Node) (snapshot : OneTopic → OneValue)
        → (topics : List OneTopic) × TopicsSuffice world tree snapshot topics }
{}
