// What initialisers store is typed: each item fills a part of its object, and no two the same bytes.

ghost use Rattle.c_typing_laws.specs.InitLaws.{InitialisersAreTyped, OpenInitialisersAreTyped};

/// The items of an initialiser fill parts of their object, each as by `=`, and no byte twice (C11 6.7.9).
pub fn initialisers_are_typed()
    ensures { InitialisersAreTyped }
{}

/// So do those of an array that has its size by them (C11 6.7.9p22).
pub fn open_initialisers_are_typed()
    ensures { OpenInitialisersAreTyped }
{}
