// The nodes of a file stand in the order of its text.

ghost use Rattle.c_grammar_laws.specs.PlaceLaws.{NodesStandInOrder};

/// Where a file is read from tokens that stand in order, its nodes stand in order too, each at a token of its own.
pub fn nodes_stand_in_order()
    ensures { NodesStandInOrder }
{}
