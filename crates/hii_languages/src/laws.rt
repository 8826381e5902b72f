//! Laws of the definitions that the contracts cite.

ghost use Rattle.std.specs.Prelude.{◌≡◌, List, [], map};
ghost use Rattle.browser_rules.specs.Faults.{each_package};
ghost use Rattle.browser_rules.specs.Packages.{Package};
ghost use Rattle.browser_rules.specs.Strings.{Spoken, spoken_by};
ghost use Rattle.hii_languages.specs.laws.Speaking.{AreSpoken};

/// String packages say one thing at most, which is what is read.
pub fn packages_say_one_thing()
    ensures one { (ps : List Package) (spoken other : List Spoken) → AreSpoken ps spoken
        → AreSpoken ps other → spoken ≡ other }
    ensures read { (ps : List Package) (spoken : List Spoken) → AreSpoken ps spoken
        → spoken ≡ map spoken_by ps }
{}

/// String packages that say something have no fault.
pub fn packages_that_speak_have_no_fault()
    ensures { (ps : List Package) (spoken : List Spoken) → AreSpoken ps spoken → each_package ps ≡ [] }
{}

/// String packages that have no fault say what is read.
pub fn packages_without_fault_speak()
    ensures { (ps : List Package) → each_package ps ≡ [] → AreSpoken ps (map spoken_by ps) }
{}
