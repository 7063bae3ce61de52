//! Worked examples: corners of turns.
ghost use Rattle.std.specs.Prelude.{◌≡◌, ◌∷◌, [], Err, Some, codes, nat_eq, ◌++◌};
ghost use Rattle.vt_machine_examples.specs.Queues.{waiting};
ghost use Rattle.vt_spec.specs.declared.errors.Rule.TheVariants.{S2};
ghost use Rattle.vt_spec.specs.Errors.{denial};
ghost use Rattle.vt_spec.specs.Language.Calls.Call.{Ls};
ghost use Rattle.vt_spec.specs.Language.Script.Version.{One};
ghost use Rattle.vt_spec.specs.Language.Script.Who.{Nobody};
ghost use Rattle.vt_spec.specs.Machine.Run.{numbers_for};
ghost use Rattle.vt_spec.specs.Machine.Turns.{turn, turns_text};
ghost use Rattle.vt_spec.specs.Machine.Turns.Item.{Calls};

/// Each word of a path, and of a link's text, takes a turn; a path without words takes none.
pub fn words_of_paths_and_link_texts()
    ensures { turns_text One [] (codes "t mkdir /a\nt symlink /a /l\nt ls /l\nt stat /\nt mount plain /a\nt ls /l/..\n! peers\n! peers\n"
        ++ codes "! peers\n! peers\n! peers\n! peers\n") (codes "t\n!\nt\nt\n!\nt\nt\nt\n!\nt\nt\n!\nt\n!\nt\nt\nt\nt\n!\nt\n")
        ≡ codes "7 ok 0\n1 ok\n8 ok 0\n2 ok\n9 ok 0\n3 ok\n4 ok dir 0755 0 0\n10 ok 0\n11 ok 0\n5 ok\n12 ok 0\n6 ok a l\n" }
{}

/// When a refused call is answered: at the step that fails, at its first turn, or at its last.
pub fn refusals_in_turns()
    ensures { turns_text One [] (codes "t read /x/y\nt foo\nt.9 ls /\nt mkdir /d\nt rename /d/. /no/x\nt drop *\nt mount plain /d\n! peers\n"
        ++ codes "! peers\n! peers\nno line\nt\\x2e9 foo\n") (codes "t\nt\nt.9\nt\n!\nt\nt\n!\nt\n!\nt\nt\nt\nt\nt.9\nt.9\nx\n\nt \n")
        ≡ codes "1 deny 2 ENOENT W6\n2 deny 22 EINVAL S1\n3 deny 3 ESRCH S2\n8 ok 0\n4 ok\n9 ok 0\n10 ok 0\n"
        ++ codes "5 deny 16 EBUSY P1\n6 ok\n7 deny 1 EPERM K1\n12 deny 22 EINVAL S1\n" }
{}

/// A call in the queue of nobody is a call of no task: it takes one turn, and is answered S2. No script puts one there.
pub fn a_call_in_the_queue_of_nobody()
    ensures { turn nat_eq (waiting (record { line = 1; item = Calls (Ls (codes "/")) } ∷ [])) Nobody (Some (numbers_for 1))
        ≡ record { sched = waiting []; reply = Some (record { line = 1; answer = Err (denial S2) }) } }
{}

/// A call restarts where a mount of its namespace really has another type, and not where it keeps its own.
pub fn numbers_of_namespaces()
    ensures { turns_text One [] (codes "t mkdir /a\nt write /a/f x\nt fork\nt.1 read /a/f\nt type / private\nt type / shared\n"
        ++ codes "t remount / rw\nt chdir /a\n") (codes "t\nt\nt\nt\nt\nt\nt.1\nt\nt.1\nt\nt.1\nt\nt.1\nt\nt\nt.1\n")
        ≡ codes "1 ok\n2 ok\n3 ok t.1\n5 ok\n6 ok\n7 ok\n8 ok\n4 ok x\n" }
{}

/// A call on its way through an overlay restarts where another one changes it, and not where it copies nothing.
pub fn numbers_of_overlays()
    ensures { turns_text One [] (codes "t mkdir /l\nt write /l/f x\nt mkdir /u\nt mkdir /w\nt mkdir /m\n"
        ++ codes "t mount overlay /m lowerdir=/l,upperdir=/u,workdir=/w\nt fork\nt.1 read /m/f\nt open /m/f r\n"
        ++ codes "t write /m/g y\nt open /m/g w\n") (codes "t\nt\nt\nt\nt\nt\nt\nt\nt\nt\nt\nt\nt\nt\nt\nt\nt\nt.1\nt\nt\nt\nt.1\nt\nt\nt\nt.1\nt\nt\nt\nt.1\nt.1\n")
        ≡ codes "1 ok\n2 ok\n3 ok\n4 ok\n5 ok\n6 ok\n7 ok t.1\n9 ok 0\n10 ok\n11 ok 1\n8 ok x\n" }
{}

/// A name that is to be made is looked up without entering the mount over it, so a change in that mount restarts
/// nothing.
pub fn a_name_under_a_mount()
    ensures { turns_text One [] (codes "t mkdir /m\nt mount plain /m\nt fork\nt.1 mkdir /m\nt write /m/f x\n") (codes "t\nt\nt\nt\nt\nt.1\nt\nt\nt\nt.1\n")
        ≡ codes "1 ok\n2 ok\n3 ok t.1\n5 ok\n4 deny 17 EEXIST E1\n" }
{}
