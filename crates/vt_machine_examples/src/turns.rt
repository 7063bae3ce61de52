//! Worked examples: turns.
ghost use Rattle.std.specs.Prelude.{◌≡◌, [], codes, ◌++◌};
ghost use Rattle.vt_spec.specs.Language.Script.Version.{One};
ghost use Rattle.vt_spec.specs.Machine.Turns.{turns_text};

/// A walk under way sees that a search right was taken away.
pub fn search_right_taken_away_during_a_walk()
    ensures { turns_text One [] (codes "t mkdir /a\nt mkdir /a/b\nt write /a/b/c x\nt fork 7 7 - -\nt.1 read /a/b/c\nt chmod /a 0\n") (codes "t\nt\nt\nt\nt\nt\nt\nt\nt\nt\nt.1\nt.1\nt\nt\nt.1\nt.1\n")
        ≡ codes "1 ok\n2 ok\n3 ok\n4 ok t.1\n6 ok\n5 deny 13 EACCES W4\n" }
{}

/// A call that restarted three times is then run whole in one turn.
pub fn three_restarts_then_whole()
    ensures { turns_text One [] (codes "t mkdir /a\nt write /a/f x\nt fork\nt.1 read /a/f\nt chmod / 755\nt chmod / 755\nt chmod / 755\n"
        ++ codes "t chmod / 755\n") (codes "t\nt\nt\nt\nt\nt\nt.1\nt\nt.1\nt\nt.1\nt\nt.1\nt\nt.1\n")
        ≡ codes "1 ok\n2 ok\n3 ok t.1\n5 ok\n6 ok\n7 ok\n8 ok\n4 ok x\n" }
{}

/// A change of the other task alone restarts no call.
pub fn changes_that_restart_nothing()
    ensures { turns_text One [] (codes "t mkdir /a\nt write /a/f x\nt fork\nt.1 read /a/f\nt umask 22\nt umask 22\nt umask 22\nt umask 22\n") (codes "t\nt\nt\nt\nt\nt\nt.1\nt\nt.1\nt\nt.1\nt\nt.1\nt\nt.1\n")
        ≡ codes "1 ok\n2 ok\n3 ok t.1\n5 ok\n6 ok\n4 ok x\n7 ok\n8 ok\n" }
{}

/// A directive has a queue of its own.
pub fn directive_in_turns()
    ensures { turns_text One [] (codes "! sealed t\n") (codes "!\n") ≡ codes "1 ok yes\n" }
{}
