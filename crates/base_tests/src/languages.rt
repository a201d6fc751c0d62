//! The rules of some languages with numbers from the rules' own samples (CLDR 41, plurals.xml and
//! ordinals.xml).

use plural_rules::Category;

/// A category, its rule, and numbers of that category.
pub(crate) type Row = (Category, &'static str, &'static [i64]);

pub(crate) const LANGUAGES: &[(&str, &[Row])] = &[
    (
        "English",
        &[
            (Category::One, "i = 1 and v = 0 @integer 1", &[1, -1]),
            (
                Category::Other,
                " @integer 0, 2~16, 100, … @decimal 0.0~1.5, …",
                &[0, 2, 16, 100, -2],
            ),
        ],
    ),
    (
        "French",
        &[
            (
                Category::One,
                "i = 0,1 @integer 0, 1 @decimal 0.0~1.5",
                &[0, 1, -1],
            ),
            (
                Category::Many,
                "e = 0 and i != 0 and i % 1000000 = 0 and v = 0 or e != 0..5 @integer 1000000, 1c6, …",
                &[1_000_000, -2_000_000],
            ),
            (
                Category::Other,
                " @integer 2~17, 100, 1000, 10000, 100000, …",
                &[2, 17, 100, 100_000],
            ),
        ],
    ),
    (
        "Russian",
        &[
            (
                Category::One,
                "v = 0 and i % 10 = 1 and i % 100 != 11 @integer 1, 21, 31, 41, 51, 61, 71, 81, 101, 1001, …",
                &[1, 21, 81, 101, 1001, -21],
            ),
            (
                Category::Few,
                "v = 0 and i % 10 = 2..4 and i % 100 != 12..14 @integer 2~4, 22~24, 32~34, 62, 102, 1002, …",
                &[2, 3, 4, 22, 24, 62, 1002],
            ),
            (
                Category::Many,
                "v = 0 and i % 10 = 0 or v = 0 and i % 10 = 5..9 or v = 0 and i % 100 = 11..14 @integer 0, 5~19, …",
                &[0, 5, 11, 14, 19, 100, 1_000_000],
            ),
            (Category::Other, "   @decimal 0.0~1.5, 10.0, …", &[]),
        ],
    ),
    (
        "Polish",
        &[
            (Category::One, "i = 1 and v = 0 @integer 1", &[1]),
            (
                Category::Few,
                "v = 0 and i % 10 = 2..4 and i % 100 != 12..14 @integer 2~4, 22~24, 32~34, 62, 102, 1002, …",
                &[2, 4, 23, 102],
            ),
            (
                Category::Many,
                "v = 0 and i != 1 and i % 10 = 0..1 or v = 0 and i % 10 = 5..9 or v = 0 and i % 100 = 12..14 @…",
                &[0, 5, 12, 19, 100],
            ),
        ],
    ),
    (
        "Arabic",
        &[
            (Category::Zero, "n = 0 @integer 0 @decimal 0.0, 0.00", &[0]),
            (
                Category::One,
                "n = 1 @integer 1 @decimal 1.0, 1.00",
                &[1, -1],
            ),
            (Category::Two, "n = 2 @integer 2 @decimal 2.0, 2.00", &[2]),
            (
                Category::Few,
                "n % 100 = 3..10 @integer 3~10, 103~110, 1003, …",
                &[3, 10, 103, 110, 1003],
            ),
            (
                Category::Many,
                "n % 100 = 11..99 @integer 11~26, 111, 1011, …",
                &[11, 26, 111, 1011],
            ),
            (
                Category::Other,
                " @integer 100~102, 200~202, 300~302, …",
                &[100, 102, 302, 600, 1_000_000],
            ),
        ],
    ),
    (
        "Welsh",
        &[
            (Category::Zero, "n = 0 @integer 0", &[0]),
            (Category::One, "n = 1 @integer 1", &[1]),
            (Category::Two, "n = 2 @integer 2", &[2]),
            (Category::Few, "n = 3 @integer 3", &[3]),
            (Category::Many, "n = 6 @integer 6", &[6]),
            (
                Category::Other,
                " @integer 4, 5, 7~20, 100, …",
                &[4, 5, 7, 20, 100],
            ),
        ],
    ),
    (
        "Slovenian",
        &[
            (
                Category::One,
                "v = 0 and i % 100 = 1 @integer 1, 101, 201, 1001, …",
                &[1, 101, 1001],
            ),
            (
                Category::Two,
                "v = 0 and i % 100 = 2 @integer 2, 102, 202, 1002, …",
                &[2, 702, 1002],
            ),
            (
                Category::Few,
                "v = 0 and i % 100 = 3..4 or v != 0 @integer 3, 4, 103, 104, 1003, …",
                &[3, 4, 704, 1003],
            ),
            (
                Category::Other,
                " @integer 0, 5~19, 100, 1000, …",
                &[0, 5, 19, 100, 1000],
            ),
        ],
    ),
    (
        "Lithuanian",
        &[
            (
                Category::One,
                "n % 10 = 1 and n % 100 != 11..19 @integer 1, 21, 31, 101, 1001, …",
                &[1, 21, 101],
            ),
            (
                Category::Few,
                "n % 10 = 2..9 and n % 100 != 11..19 @integer 2~9, 22~29, 102, 1002, …",
                &[2, 9, 29, 102],
            ),
            (Category::Many, "f != 0   @decimal 0.1~0.9, 1.1~1.7, …", &[]),
            (
                Category::Other,
                " @integer 0, 10~20, 30, 40, 50, 60, 100, …",
                &[0, 10, 11, 19, 20, 60],
            ),
        ],
    ),
    (
        "Irish",
        &[
            (Category::One, "n = 1 @integer 1", &[1]),
            (Category::Two, "n = 2 @integer 2", &[2]),
            (Category::Few, "n = 3..6 @integer 3~6", &[3, 4, 6]),
            (Category::Many, "n = 7..10 @integer 7~10", &[7, 10]),
            (
                Category::Other,
                " @integer 0, 11~25, 100, …",
                &[0, 11, 25, 100],
            ),
        ],
    ),
    (
        "Japanese",
        &[(
            Category::Other,
            " @integer 0~15, 100, 1000, …",
            &[0, 1, 15, 1000, i64::MIN, i64::MAX],
        )],
    ),
    (
        "English ordinals",
        &[
            (
                Category::One,
                "n % 10 = 1 and n % 100 != 11 @integer 1, 21, 31, 101, 1001, …",
                &[1, 21, 101],
            ),
            (
                Category::Two,
                "n % 10 = 2 and n % 100 != 12 @integer 2, 22, 32, 102, 1002, …",
                &[2, 22, 1002],
            ),
            (
                Category::Few,
                "n % 10 = 3 and n % 100 != 13 @integer 3, 23, 33, 103, 1003, …",
                &[3, 33, 103],
            ),
            (
                Category::Other,
                " @integer 0, 4~18, 100, 1000, …",
                &[0, 4, 11, 12, 13, 18, 100],
            ),
        ],
    ),
    (
        "Italian ordinals",
        &[
            (
                Category::Many,
                "n = 11,8,80,800 @integer 8, 11, 80, 800",
                &[8, 11, 80, 800],
            ),
            (
                Category::Other,
                " @integer 0~7, 9, 10, 12~17, 100, …",
                &[0, 7, 9, 12, 100],
            ),
        ],
    ),
    (
        "Ukrainian ordinals",
        &[
            (
                Category::Few,
                "n % 10 = 3 and n % 100 != 13 @integer 3, 23, 33, 103, 1003, …",
                &[3, 23, 1003],
            ),
            (
                Category::Other,
                " @integer 0~2, 4~16, 100, 1000, …",
                &[0, 2, 4, 13, 16],
            ),
        ],
    ),
    (
        "Catalan ordinals",
        &[
            (Category::One, "n = 1,3 @integer 1, 3", &[1, 3]),
            (Category::Two, "n = 2 @integer 2", &[2]),
            (Category::Few, "n = 4 @integer 4", &[4]),
            (
                Category::Other,
                " @integer 0, 5~19, 100, …",
                &[0, 5, 19, 100],
            ),
        ],
    ),
];
