// What stands at one place of the text of a typed file looks at the same.

ghost use Rattle.c_typing_places.specs.SiteLaws.{SitesOfTextsAgree, TypedSitesAgree};

/// Where the tokens of a file stand in order, what stands at one place in a function of its program looks at the same.
pub fn typed_sites_agree()
    ensures { TypedSitesAgree }
{}

/// So it is in the program of a file that is cut from a text.
pub fn sites_of_texts_agree()
    ensures { SitesOfTextsAgree }
{}
