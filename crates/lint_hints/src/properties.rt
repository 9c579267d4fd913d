//! Unicode properties that pest has and the front end has not.
ghost use Rattle.std.specs.Prelude.{◌≡◌, map};
ghost use Rattle.base_language.specs.Language.Builtins.{is_one_of};
ghost use Rattle.lint_hints.specs.Properties as spec;

/// The names of Unicode properties of pest 2.9.2 that are none of `unicode_property_names`.
static PEST_PROPERTIES: [&str; 144] = [
    "EMOJI",
    "EMOJI_COMPONENT",
    "EMOJI_MODIFIER",
    "EMOJI_MODIFIER_BASE",
    "EMOJI_PRESENTATION",
    "EXTENDED_PICTOGRAPHIC",
    "GRAPHEME_LINK",
    "IDS_BINARY_OPERATOR",
    "IDS_TRINARY_OPERATOR",
    "LOGICAL_ORDER_EXCEPTION",
    "OTHER_ALPHABETIC",
    "OTHER_DEFAULT_IGNORABLE_CODE_POINT",
    "OTHER_GRAPHEME_EXTEND",
    "OTHER_ID_CONTINUE",
    "OTHER_ID_START",
    "OTHER_LOWERCASE",
    "OTHER_MATH",
    "OTHER_UPPERCASE",
    "PREPENDED_CONCATENATION_MARK",
    "ADLAM",
    "AHOM",
    "ANATOLIAN_HIEROGLYPHS",
    "AVESTAN",
    "BALINESE",
    "BAMUM",
    "BASSA_VAH",
    "BATAK",
    "BHAIKSUKI",
    "BRAHMI",
    "BUGINESE",
    "BUHID",
    "CANADIAN_ABORIGINAL",
    "CARIAN",
    "CAUCASIAN_ALBANIAN",
    "CHAKMA",
    "CHAM",
    "CHORASMIAN",
    "COMMON",
    "CUNEIFORM",
    "CYPRIOT",
    "CYPRO_MINOAN",
    "DESERET",
    "DIVES_AKURU",
    "DOGRA",
    "DUPLOYAN",
    "EGYPTIAN_HIEROGLYPHS",
    "ELBASAN",
    "ELYMAIC",
    "GLAGOLITIC",
    "GRANTHA",
    "GUNJALA_GONDI",
    "HANIFI_ROHINGYA",
    "HANUNOO",
    "HATRAN",
    "IMPERIAL_ARAMAIC",
    "INHERITED",
    "INSCRIPTIONAL_PAHLAVI",
    "INSCRIPTIONAL_PARTHIAN",
    "JAVANESE",
    "KAITHI",
    "KAWI",
    "KAYAH_LI",
    "KHAROSHTHI",
    "KHITAN_SMALL_SCRIPT",
    "KHOJKI",
    "KHUDAWADI",
    "LEPCHA",
    "LIMBU",
    "LINEAR_A",
    "LINEAR_B",
    "LISU",
    "LYCIAN",
    "LYDIAN",
    "MAHAJANI",
    "MAKASAR",
    "MANDAIC",
    "MANICHAEAN",
    "MARCHEN",
    "MASARAM_GONDI",
    "MEDEFAIDRIN",
    "MEETEI_MAYEK",
    "MENDE_KIKAKUI",
    "MEROITIC_CURSIVE",
    "MEROITIC_HIEROGLYPHS",
    "MIAO",
    "MODI",
    "MRO",
    "MULTANI",
    "NABATAEAN",
    "NAG_MUNDARI",
    "NANDINAGARI",
    "NEW_TAI_LUE",
    "NEWA",
    "NKO",
    "NUSHU",
    "NYIAKENG_PUACHUE_HMONG",
    "OL_CHIKI",
    "OLD_HUNGARIAN",
    "OLD_ITALIC",
    "OLD_NORTH_ARABIAN",
    "OLD_PERMIC",
    "OLD_PERSIAN",
    "OLD_SOGDIAN",
    "OLD_SOUTH_ARABIAN",
    "OLD_TURKIC",
    "OLD_UYGHUR",
    "OSAGE",
    "OSMANYA",
    "PAHAWH_HMONG",
    "PALMYRENE",
    "PAU_CIN_HAU",
    "PHAGS_PA",
    "PHOENICIAN",
    "PSALTER_PAHLAVI",
    "REJANG",
    "SAMARITAN",
    "SAURASHTRA",
    "SHARADA",
    "SHAVIAN",
    "SIDDHAM",
    "SIGNWRITING",
    "SOGDIAN",
    "SORA_SOMPENG",
    "SOYOMBO",
    "SUNDANESE",
    "SYLOTI_NAGRI",
    "TAGALOG",
    "TAGBANWA",
    "TAI_LE",
    "TAI_THAM",
    "TAI_VIET",
    "TAKRI",
    "TANGSA",
    "TANGUT",
    "TIFINAGH",
    "TIRHUTA",
    "TOTO",
    "UGARITIC",
    "VAI",
    "VITHKUQI",
    "WANCHO",
    "WARANG_CITI",
    "YEZIDI",
    "ZANABAZAR_SQUARE",
];

/// Whether pest has a Unicode property named `name`, and the front end has not.
pub fn is_pest_property(name: &str) -> bool
    ensures { result ≡ spec.is_pest_property name.now }
{
    is_among(pest_properties(), name)
}

/// The message on a call of such a property.
pub fn pest_property_text() -> &'static str
    ensures { result.now ≡ spec.pest_property_text }
{
    "pest has this Unicode property, and this front end does not: in pest the name is right"
}

/// The names of such properties.
fn pest_properties() -> &'static [&'static str]
    ensures { map (λ name. name.now) result.now ≡ spec.pest_properties }
{
    &PEST_PROPERTIES
}

/// Whether a name is among others.
fn is_among(names: &[&str], name: &str) -> bool
    ensures { result ≡ is_one_of (map (λ n. n.now) names.now) name.now }
{
    names.contains(&name)
}
