//! Worked examples: overlay reading.
ghost use Rattle.std.specs.Prelude.{◌≡◌, [], codes, ◌++◌, decimal};
ghost use Rattle.std.specs.List.{flat_map, range_with_len};
ghost use Rattle.vt_spec.specs.Machine.Run.{machine_text};
ghost use Rattle.vt_spec.specs.Language.Script.{Version};

/// What a whiteout and an opaque mark in a higher layer hide.
pub fn whiteout_and_opaque_mark_in_a_layer()
    ensures { (version : Version) → machine_text version [] (codes "t mkdir /l1\nt whiteout /l1/a\nt mkdir /l1/d\nt opaque /l1/d yes\nt mkdir /l2\nt write /l2/a 1\n"
        ++ codes "t write /l2/b 2\nt mkdir /l2/d\nt write /l2/d/x 3\nt mkdir /m\nt mount overlay /m lowerdir=/l1:/l2\n"
        ++ codes "t ls /m\nt ls /m/d\nt read /m/a\nt ls /l1\nt read /l1/a\nt stat /l1/d\nt whiteout /l2/q\nt mounts\n")
        ≡ codes "1 ok\n2 ok\n3 ok\n4 ok\n5 ok\n6 ok\n7 ok\n8 ok\n9 ok\n10 ok\n11 ok\n12 ok b d\n13 ok\n"
        ++ codes "14 deny 2 ENOENT W6\n15 ok a d\n16 deny 6 ENXIO E9\n17 ok dir 0755 0 0 opaque\n18 deny 16 EBUSY L1\n"
        ++ codes "19 ok 2\n19 1 - - plain:1 / rw private\n19 2 1 /m overlay:2 / rw private\n" }
{}

/// Each access needs the rights of the caller and of the mounter; a locked layer refuses a
/// descriptor.
pub fn mounter_without_rights()
    ensures { (version : Version) → machine_text version [] (codes "t mkdir /l\nt write /l/f x\nt chmod /l/f 600\nt mkdir /l/p 700\nt mkdir /k\nt mkdir /m\n"
        ++ codes "t open /l/f w\nt fork 5 5 - CAP_SYS_ADMIN\nt.1 mount overlay /m lowerdir=/l:/k\nt read /m/f\n"
        ++ codes "t.1 read /m/f\nt ls /m/p\nt stat /m/p/x\nt pwrite 0 0 z\n")
        ≡ codes "1 ok\n2 ok\n3 ok\n4 ok\n5 ok\n6 ok\n7 ok 0\n8 ok t.1\n9 ok\n10 deny 13 EACCES B1\n"
        ++ codes "11 deny 13 EACCES C1\n12 deny 13 EACCES B1\n13 deny 13 EACCES W5\n14 deny 16 EBUSY L1\n" }
{}

/// A file in a middle layer cuts what is below it; layers are locked while the overlay is mounted.
pub fn directory_over_file_over_directory()
    ensures { (version : Version) → machine_text version [] (codes "t mkdir /l1\nt mkdir /l1/n\nt write /l1/n/x 1\nt mkdir /l2\nt write /l2/n q\nt mkdir /l3\n"
        ++ codes "t mkdir /l3/n\nt write /l3/n/y 2\nt mkdir /m\nt mount overlay /m lowerdir=/l1:/l2:/l3\nt ls /m/n\n"
        ++ codes "t write /m/n/x z\nt mkdir /l3/k\nt umount /m\nt mkdir /l3/k\n")
        ≡ codes "1 ok\n2 ok\n3 ok\n4 ok\n5 ok\n6 ok\n7 ok\n8 ok\n9 ok\n10 ok\n11 ok x\n12 deny 30 EROFS F2\n"
        ++ codes "13 deny 16 EBUSY L1\n14 ok\n15 ok\n" }
{}

/// The largest number of lower layers.
pub fn overlay_of_128_lower_layers()
    ensures { (version : Version) → machine_text version [] (codes "t mkdir /m\n"
        ++ flat_map (λ n. codes "t mkdir /l" ++ decimal n ++ codes "\n") (range_with_len 1 128)
        ++ codes "t mount overlay /m lowerdir=/l1:/l2:/l3:/l4:/l5:/l6:/l7:/l8:/l9:/l10:/l11:/l12:/l13:/l14:/l15:/l16:/l17:/l18:/l19:/l20:/l21:/l22:/l23:/l24:/l25:/l26:/l27:/l28:/l29:/l30:/l31:/l32:/l33:/l34:/l35:/l36:/l37:/l38:/l39:/l40:/l41:/l42:/l43:/l44:/l45:/l46:/l47:/l48:/l49:/l50:/l51:/l52:/l53:/l54:/l55:/l56:/l57:/l58:/l59:/l60:/l61:/l62:/l63:/l64:/l65:/l66:/l67:/l68:/l69:/l70:/l71:/l72:/l73:/l74:/l75:/l76:/l77:/l78:/l79:/l80:/l81:/l82:/l83:/l84:/l85:/l86:/l87:/l88:/l89:/l90:/l91:/l92:/l93:/l94:/l95:/l96:/l97:/l98:/l99:/l100:/l101:/l102:/l103:/l104:/l105:/l106:/l107:/l108:/l109:/l110:/l111:/l112:/l113:/l114:/l115:/l116:/l117:/l118:/l119:/l120:/l121:/l122:/l123:/l124:/l125:/l126:/l127:/l128\n")
        ≡ flat_map (λ n. decimal n ++ codes " ok\n") (range_with_len 1 130) }
{}

/// One lower layer too many.
pub fn overlay_of_129_lower_layers()
    ensures { (version : Version) → machine_text version [] (codes "t mkdir /m\n"
        ++ flat_map (λ n. codes "t mkdir /l" ++ decimal n ++ codes "\n") (range_with_len 1 129)
        ++ codes "t mount overlay /m lowerdir=/l1:/l2:/l3:/l4:/l5:/l6:/l7:/l8:/l9:/l10:/l11:/l12:/l13:/l14:/l15:/l16:/l17:/l18:/l19:/l20:/l21:/l22:/l23:/l24:/l25:/l26:/l27:/l28:/l29:/l30:/l31:/l32:/l33:/l34:/l35:/l36:/l37:/l38:/l39:/l40:/l41:/l42:/l43:/l44:/l45:/l46:/l47:/l48:/l49:/l50:/l51:/l52:/l53:/l54:/l55:/l56:/l57:/l58:/l59:/l60:/l61:/l62:/l63:/l64:/l65:/l66:/l67:/l68:/l69:/l70:/l71:/l72:/l73:/l74:/l75:/l76:/l77:/l78:/l79:/l80:/l81:/l82:/l83:/l84:/l85:/l86:/l87:/l88:/l89:/l90:/l91:/l92:/l93:/l94:/l95:/l96:/l97:/l98:/l99:/l100:/l101:/l102:/l103:/l104:/l105:/l106:/l107:/l108:/l109:/l110:/l111:/l112:/l113:/l114:/l115:/l116:/l117:/l118:/l119:/l120:/l121:/l122:/l123:/l124:/l125:/l126:/l127:/l128:/l129\n")
        ≡ flat_map (λ n. decimal n ++ codes " ok\n") (range_with_len 1 130)
        ++ codes "131 deny 22 EINVAL O2\n" }
{}
