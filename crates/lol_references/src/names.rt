//! The named character references of the HTML Standard (13.5), written by docs/references.py.

// Rows with a space behind each: a name, `=`, and the characters that it stands for. Rows whose names begin with the same two letters are in one
// part, and a name that goes on with another one stands before it.
#[rattlefmt::skip]
pub(crate) static NAMES: &str = "\
    AElig;=\u{00C6} AElig=\u{00C6} AMP;=& AMP=& Aacute;=\u{00C1} Aacute=\u{00C1} Abreve;=\u{0102} Acy;=\u{0410} Acirc;=\u{00C2} \
    Acirc=\u{00C2} Afr;=\u{1D504} Agrave;=\u{00C0} Agrave=\u{00C0} Alpha;=\u{0391} Amacr;=\u{0100} And;=\u{2A53} Aopf;=\u{1D538} \
    Aogon;=\u{0104} ApplyFunction;=\u{2061} Aring;=\u{00C5} Aring=\u{00C5} Assign;=\u{2254} Ascr;=\u{1D49C} Atilde;=\u{00C3} \
    Atilde=\u{00C3} Auml;=\u{00C4} Auml=\u{00C4} Barwed;=\u{2306} Barv;=\u{2AE7} Backslash;=\u{2216} Bcy;=\u{0411} Beta;=\u{0392} \
    Bernoullis;=\u{212C} Because;=\u{2235} Bfr;=\u{1D505} Bopf;=\u{1D539} Breve;=\u{02D8} Bscr;=\u{212C} Bumpeq;=\u{224E} CHcy;=\u{0427} \
    COPY;=\u{00A9} COPY=\u{00A9} Cayleys;=\u{212D} CapitalDifferentialD;=\u{2145} Cap;=\u{22D2} Cacute;=\u{0106} Cconint;=\u{2230} \
    Ccirc;=\u{0108} Ccedil;=\u{00C7} Ccedil=\u{00C7} Ccaron;=\u{010C} Cdot;=\u{010A} CenterDot;=\u{00B7} Cedilla;=\u{00B8} Cfr;=\u{212D} \
    Chi;=\u{03A7} CircleTimes;=\u{2297} CirclePlus;=\u{2295} CircleMinus;=\u{2296} CircleDot;=\u{2299} CloseCurlyQuote;=\u{2019} \
    CloseCurlyDoubleQuote;=\u{201D} ClockwiseContourIntegral;=\u{2232} CounterClockwiseContourIntegral;=\u{2233} Coproduct;=\u{2210} \
    Copf;=\u{2102} ContourIntegral;=\u{222E} Conint;=\u{222F} Congruent;=\u{2261} Colone;=\u{2A74} Colon;=\u{2237} Cross;=\u{2A2F} \
    Cscr;=\u{1D49E} CupCap;=\u{224D} Cup;=\u{22D3} DDotrahd;=\u{2911} DD;=\u{2145} DJcy;=\u{0402} DScy;=\u{0405} DZcy;=\u{040F} \
    Dashv;=\u{2AE4} Darr;=\u{21A1} Dagger;=\u{2021} Dcy;=\u{0414} Dcaron;=\u{010E} Delta;=\u{0394} Del;=\u{2207} Dfr;=\u{1D507} \
    DifferentialD;=\u{2146} Diamond;=\u{22C4} DiacriticalTilde;=\u{02DC} DiacriticalGrave;=` DiacriticalDoubleAcute;=\u{02DD} \
    DiacriticalDot;=\u{02D9} DiacriticalAcute;=\u{00B4} Downarrow;=\u{21D3} DownTeeArrow;=\u{21A7} DownTee;=\u{22A4} \
    DownRightVectorBar;=\u{2957} DownRightVector;=\u{21C1} DownRightTeeVector;=\u{295F} DownLeftVectorBar;=\u{2956} \
    DownLeftVector;=\u{21BD} DownLeftTeeVector;=\u{295E} DownLeftRightVector;=\u{2950} DownBreve;=\u{0311} DownArrowUpArrow;=\u{21F5} \
    DownArrowBar;=\u{2913} DownArrow;=\u{2193} DoubleVerticalBar;=\u{2225} DoubleUpDownArrow;=\u{21D5} DoubleUpArrow;=\u{21D1} \
    DoubleRightTee;=\u{22A8} DoubleRightArrow;=\u{21D2} DoubleLongRightArrow;=\u{27F9} DoubleLongLeftRightArrow;=\u{27FA} \
    DoubleLongLeftArrow;=\u{27F8} DoubleLeftTee;=\u{2AE4} DoubleLeftRightArrow;=\u{21D4} DoubleLeftArrow;=\u{21D0} \
    DoubleDownArrow;=\u{21D3} DoubleDot;=\u{00A8} DoubleContourIntegral;=\u{222F} DotEqual;=\u{2250} DotDot;=\u{20DC} Dot;=\u{00A8} \
    Dopf;=\u{1D53B} Dstrok;=\u{0110} Dscr;=\u{1D49F} ENG;=\u{014A} ETH;=\u{00D0} ETH=\u{00D0} Eacute;=\u{00C9} Eacute=\u{00C9} \
    Ecy;=\u{042D} Ecirc;=\u{00CA} Ecirc=\u{00CA} Ecaron;=\u{011A} Edot;=\u{0116} Efr;=\u{1D508} Egrave;=\u{00C8} Egrave=\u{00C8} \
    Element;=\u{2208} EmptyVerySmallSquare;=\u{25AB} EmptySmallSquare;=\u{25FB} Emacr;=\u{0112} Eopf;=\u{1D53C} Eogon;=\u{0118} \
    Epsilon;=\u{0395} Equilibrium;=\u{21CC} EqualTilde;=\u{2242} Equal;=\u{2A75} Esim;=\u{2A73} Escr;=\u{2130} Eta;=\u{0397} \
    Euml;=\u{00CB} Euml=\u{00CB} ExponentialE;=\u{2147} Exists;=\u{2203} Fcy;=\u{0424} Ffr;=\u{1D509} FilledVerySmallSquare;=\u{25AA} \
    FilledSmallSquare;=\u{25FC} Fouriertrf;=\u{2131} ForAll;=\u{2200} Fopf;=\u{1D53D} Fscr;=\u{2131} GJcy;=\u{0403} GT;=> GT=> \
    Gammad;=\u{03DC} Gamma;=\u{0393} Gbreve;=\u{011E} Gcy;=\u{0413} Gcirc;=\u{011C} Gcedil;=\u{0122} Gdot;=\u{0120} Gfr;=\u{1D50A} \
    Gg;=\u{22D9} Gopf;=\u{1D53E} GreaterTilde;=\u{2273} GreaterSlantEqual;=\u{2A7E} GreaterLess;=\u{2277} GreaterGreater;=\u{2AA2} \
    GreaterFullEqual;=\u{2267} GreaterEqualLess;=\u{22DB} GreaterEqual;=\u{2265} Gscr;=\u{1D4A2} Gt;=\u{226B} HARDcy;=\u{042A} Hat;=^ \
    Hacek;=\u{02C7} Hcirc;=\u{0124} Hfr;=\u{210C} HilbertSpace;=\u{210B} HorizontalLine;=\u{2500} Hopf;=\u{210D} Hstrok;=\u{0126} \
    Hscr;=\u{210B} HumpEqual;=\u{224F} HumpDownHump;=\u{224E} IEcy;=\u{0415} IJlig;=\u{0132} IOcy;=\u{0401} Iacute;=\u{00CD} \
    Iacute=\u{00CD} Icy;=\u{0418} Icirc;=\u{00CE} Icirc=\u{00CE} Idot;=\u{0130} Ifr;=\u{2111} Igrave;=\u{00CC} Igrave=\u{00CC} \
    Implies;=\u{21D2} ImaginaryI;=\u{2148} Imacr;=\u{012A} Im;=\u{2111} InvisibleTimes;=\u{2062} InvisibleComma;=\u{2063} \
    Intersection;=\u{22C2} Integral;=\u{222B} Int;=\u{222C} Iota;=\u{0399} Iopf;=\u{1D540} Iogon;=\u{012E} Iscr;=\u{2110} \
    Itilde;=\u{0128} Iuml;=\u{00CF} Iuml=\u{00CF} Iukcy;=\u{0406} Jcy;=\u{0419} Jcirc;=\u{0134} Jfr;=\u{1D50D} Jopf;=\u{1D541} \
    Jsercy;=\u{0408} Jscr;=\u{1D4A5} Jukcy;=\u{0404} KHcy;=\u{0425} KJcy;=\u{040C} Kappa;=\u{039A} Kcy;=\u{041A} Kcedil;=\u{0136} \
    Kfr;=\u{1D50E} Kopf;=\u{1D542} Kscr;=\u{1D4A6} LJcy;=\u{0409} LT;=< LT=< Larr;=\u{219E} Laplacetrf;=\u{2112} Lang;=\u{27EA} \
    Lambda;=\u{039B} Lacute;=\u{0139} Lcy;=\u{041B} Lcedil;=\u{013B} Lcaron;=\u{013D} LessTilde;=\u{2272} LessSlantEqual;=\u{2A7D} \
    LessLess;=\u{2AA1} LessGreater;=\u{2276} LessFullEqual;=\u{2266} LessEqualGreater;=\u{22DA} Leftrightarrow;=\u{21D4} \
    Leftarrow;=\u{21D0} LeftVectorBar;=\u{2952} LeftVector;=\u{21BC} LeftUpVectorBar;=\u{2958} LeftUpVector;=\u{21BF} \
    LeftUpTeeVector;=\u{2960} LeftUpDownVector;=\u{2951} LeftTriangleEqual;=\u{22B4} LeftTriangleBar;=\u{29CF} LeftTriangle;=\u{22B2} \
    LeftTeeVector;=\u{295A} LeftTeeArrow;=\u{21A4} LeftTee;=\u{22A3} LeftRightVector;=\u{294E} LeftRightArrow;=\u{2194} \
    LeftFloor;=\u{230A} LeftDownVectorBar;=\u{2959} LeftDownVector;=\u{21C3} LeftDownTeeVector;=\u{2961} LeftDoubleBracket;=\u{27E6} \
    LeftCeiling;=\u{2308} LeftArrowRightArrow;=\u{21C6} LeftArrowBar;=\u{21E4} LeftArrow;=\u{2190} LeftAngleBracket;=\u{27E8} \
    Lfr;=\u{1D50F} Lleftarrow;=\u{21DA} Ll;=\u{22D8} Lmidot;=\u{013F} LowerRightArrow;=\u{2198} LowerLeftArrow;=\u{2199} Lopf;=\u{1D543} \
    Longrightarrow;=\u{27F9} Longleftrightarrow;=\u{27FA} Longleftarrow;=\u{27F8} LongRightArrow;=\u{27F6} LongLeftRightArrow;=\u{27F7} \
    LongLeftArrow;=\u{27F5} Lstrok;=\u{0141} Lsh;=\u{21B0} Lscr;=\u{2112} Lt;=\u{226A} Map;=\u{2905} Mcy;=\u{041C} Mellintrf;=\u{2133} \
    MediumSpace;=\u{205F} Mfr;=\u{1D510} MinusPlus;=\u{2213} Mopf;=\u{1D544} Mscr;=\u{2133} Mu;=\u{039C} NJcy;=\u{040A} Nacute;=\u{0143} \
    Ncy;=\u{041D} Ncedil;=\u{0145} Ncaron;=\u{0147} NewLine;=\u{000A} NestedLessLess;=\u{226A} NestedGreaterGreater;=\u{226B} \
    NegativeVeryThinSpace;=\u{200B} NegativeThinSpace;=\u{200B} NegativeThickSpace;=\u{200B} NegativeMediumSpace;=\u{200B} Nfr;=\u{1D511} \
    NotVerticalBar;=\u{2224} NotTildeTilde;=\u{2249} NotTildeFullEqual;=\u{2247} NotTildeEqual;=\u{2244} NotTilde;=\u{2241} \
    NotSupersetEqual;=\u{2289} NotSuperset;=\u{2283}\u{20D2} NotSucceedsTilde;=\u{227F}\u{0338} NotSucceedsSlantEqual;=\u{22E1} \
    NotSucceedsEqual;=\u{2AB0}\u{0338} NotSucceeds;=\u{2281} NotSubsetEqual;=\u{2288} NotSubset;=\u{2282}\u{20D2} \
    NotSquareSupersetEqual;=\u{22E3} NotSquareSuperset;=\u{2290}\u{0338} NotSquareSubsetEqual;=\u{22E2} NotSquareSubset;=\u{228F}\u{0338} \
    NotRightTriangleEqual;=\u{22ED} NotRightTriangleBar;=\u{29D0}\u{0338} NotRightTriangle;=\u{22EB} NotReverseElement;=\u{220C} \
    NotPrecedesSlantEqual;=\u{22E0} NotPrecedesEqual;=\u{2AAF}\u{0338} NotPrecedes;=\u{2280} NotNestedLessLess;=\u{2AA1}\u{0338} \
    NotNestedGreaterGreater;=\u{2AA2}\u{0338} NotLessTilde;=\u{2274} NotLessSlantEqual;=\u{2A7D}\u{0338} NotLessLess;=\u{226A}\u{0338} \
    NotLessGreater;=\u{2278} NotLessEqual;=\u{2270} NotLess;=\u{226E} NotLeftTriangleEqual;=\u{22EC} NotLeftTriangleBar;=\u{29CF}\u{0338} \
    NotLeftTriangle;=\u{22EA} NotHumpEqual;=\u{224F}\u{0338} NotHumpDownHump;=\u{224E}\u{0338} NotGreaterTilde;=\u{2275} \
    NotGreaterSlantEqual;=\u{2A7E}\u{0338} NotGreaterLess;=\u{2279} NotGreaterGreater;=\u{226B}\u{0338} \
    NotGreaterFullEqual;=\u{2267}\u{0338} NotGreaterEqual;=\u{2271} NotGreater;=\u{226F} NotExists;=\u{2204} \
    NotEqualTilde;=\u{2242}\u{0338} NotEqual;=\u{2260} NotElement;=\u{2209} NotDoubleVerticalBar;=\u{2226} NotCupCap;=\u{226D} \
    NotCongruent;=\u{2262} Not;=\u{2AEC} Nopf;=\u{2115} NonBreakingSpace;=\u{00A0} NoBreak;=\u{2060} Nscr;=\u{1D4A9} Ntilde;=\u{00D1} \
    Ntilde=\u{00D1} Nu;=\u{039D} OElig;=\u{0152} Oacute;=\u{00D3} Oacute=\u{00D3} Ocy;=\u{041E} Ocirc;=\u{00D4} Ocirc=\u{00D4} \
    Odblac;=\u{0150} Ofr;=\u{1D512} Ograve;=\u{00D2} Ograve=\u{00D2} Omicron;=\u{039F} Omega;=\u{03A9} Omacr;=\u{014C} Oopf;=\u{1D546} \
    OpenCurlyQuote;=\u{2018} OpenCurlyDoubleQuote;=\u{201C} Or;=\u{2A54} Oslash;=\u{00D8} Oslash=\u{00D8} Oscr;=\u{1D4AA} \
    Otimes;=\u{2A37} Otilde;=\u{00D5} Otilde=\u{00D5} Ouml;=\u{00D6} Ouml=\u{00D6} OverParenthesis;=\u{23DC} OverBracket;=\u{23B4} \
    OverBrace;=\u{23DE} OverBar;=\u{203E} PartialD;=\u{2202} Pcy;=\u{041F} Pfr;=\u{1D513} Phi;=\u{03A6} Pi;=\u{03A0} PlusMinus;=\u{00B1} \
    Popf;=\u{2119} Poincareplane;=\u{210C} Proportional;=\u{221D} Proportion;=\u{2237} Product;=\u{220F} Prime;=\u{2033} \
    PrecedesTilde;=\u{227E} PrecedesSlantEqual;=\u{227C} PrecedesEqual;=\u{2AAF} Precedes;=\u{227A} Pr;=\u{2ABB} Psi;=\u{03A8} \
    Pscr;=\u{1D4AB} QUOT;=\" QUOT=\" Qfr;=\u{1D514} Qopf;=\u{211A} Qscr;=\u{1D4AC} RBarr;=\u{2910} REG;=\u{00AE} REG=\u{00AE} \
    Rarrtl;=\u{2916} Rarr;=\u{21A0} Rang;=\u{27EB} Racute;=\u{0154} Rcy;=\u{0420} Rcedil;=\u{0156} Rcaron;=\u{0158} \
    ReverseUpEquilibrium;=\u{296F} ReverseEquilibrium;=\u{21CB} ReverseElement;=\u{220B} Re;=\u{211C} Rfr;=\u{211C} Rho;=\u{03A1} \
    Rightarrow;=\u{21D2} RightVectorBar;=\u{2953} RightVector;=\u{21C0} RightUpVectorBar;=\u{2954} RightUpVector;=\u{21BE} \
    RightUpTeeVector;=\u{295C} RightUpDownVector;=\u{294F} RightTriangleEqual;=\u{22B5} RightTriangleBar;=\u{29D0} \
    RightTriangle;=\u{22B3} RightTeeVector;=\u{295B} RightTeeArrow;=\u{21A6} RightTee;=\u{22A2} RightFloor;=\u{230B} \
    RightDownVectorBar;=\u{2955} RightDownVector;=\u{21C2} RightDownTeeVector;=\u{295D} RightDoubleBracket;=\u{27E7} \
    RightCeiling;=\u{2309} RightArrowLeftArrow;=\u{21C4} RightArrowBar;=\u{21E5} RightArrow;=\u{2192} RightAngleBracket;=\u{27E9} \
    RoundImplies;=\u{2970} Ropf;=\u{211D} Rrightarrow;=\u{21DB} Rsh;=\u{21B1} Rscr;=\u{211B} RuleDelayed;=\u{29F4} SHcy;=\u{0428} \
    SHCHcy;=\u{0429} SOFTcy;=\u{042C} Sacute;=\u{015A} Scy;=\u{0421} Scirc;=\u{015C} Scedil;=\u{015E} Scaron;=\u{0160} Sc;=\u{2ABC} \
    Sfr;=\u{1D516} ShortUpArrow;=\u{2191} ShortRightArrow;=\u{2192} ShortLeftArrow;=\u{2190} ShortDownArrow;=\u{2193} Sigma;=\u{03A3} \
    SmallCircle;=\u{2218} Sopf;=\u{1D54A} SquareUnion;=\u{2294} SquareSupersetEqual;=\u{2292} SquareSuperset;=\u{2290} \
    SquareSubsetEqual;=\u{2291} SquareSubset;=\u{228F} SquareIntersection;=\u{2293} Square;=\u{25A1} Sqrt;=\u{221A} Sscr;=\u{1D4AE} \
    Star;=\u{22C6} Supset;=\u{22D1} SupersetEqual;=\u{2287} Superset;=\u{2283} Sup;=\u{22D1} Sum;=\u{2211} SuchThat;=\u{220B} \
    SucceedsTilde;=\u{227F} SucceedsSlantEqual;=\u{227D} SucceedsEqual;=\u{2AB0} Succeeds;=\u{227B} SubsetEqual;=\u{2286} \
    Subset;=\u{22D0} Sub;=\u{22D0} THORN;=\u{00DE} THORN=\u{00DE} TRADE;=\u{2122} TScy;=\u{0426} TSHcy;=\u{040B} Tau;=\u{03A4} \
    Tab;=\u{0009} Tcy;=\u{0422} Tcedil;=\u{0162} Tcaron;=\u{0164} Tfr;=\u{1D517} ThinSpace;=\u{2009} ThickSpace;=\u{205F}\u{200A} \
    Theta;=\u{0398} Therefore;=\u{2234} TildeTilde;=\u{2248} TildeFullEqual;=\u{2245} TildeEqual;=\u{2243} Tilde;=\u{223C} \
    Topf;=\u{1D54B} TripleDot;=\u{20DB} Tstrok;=\u{0166} Tscr;=\u{1D4AF} Uarrocir;=\u{2949} Uarr;=\u{219F} Uacute;=\u{00DA} \
    Uacute=\u{00DA} Ubreve;=\u{016C} Ubrcy;=\u{040E} Ucy;=\u{0423} Ucirc;=\u{00DB} Ucirc=\u{00DB} Udblac;=\u{0170} Ufr;=\u{1D518} \
    Ugrave;=\u{00D9} Ugrave=\u{00D9} Umacr;=\u{016A} UnionPlus;=\u{228E} Union;=\u{22C3} UnderParenthesis;=\u{23DD} \
    UnderBracket;=\u{23B5} UnderBrace;=\u{23DF} UnderBar;=_ Uopf;=\u{1D54C} Uogon;=\u{0172} Upsilon;=\u{03A5} Upsi;=\u{03D2} \
    UpperRightArrow;=\u{2197} UpperLeftArrow;=\u{2196} Updownarrow;=\u{21D5} Uparrow;=\u{21D1} UpTeeArrow;=\u{21A5} UpTee;=\u{22A5} \
    UpEquilibrium;=\u{296E} UpDownArrow;=\u{2195} UpArrowDownArrow;=\u{21C5} UpArrowBar;=\u{2912} UpArrow;=\u{2191} Uring;=\u{016E} \
    Uscr;=\u{1D4B0} Utilde;=\u{0168} Uuml;=\u{00DC} Uuml=\u{00DC} VDash;=\u{22AB} Vbar;=\u{2AEB} Vcy;=\u{0412} Vdashl;=\u{2AE6} \
    Vdash;=\u{22A9} VeryThinSpace;=\u{200A} VerticalTilde;=\u{2240} VerticalSeparator;=\u{2758} VerticalLine;=| VerticalBar;=\u{2223} \
    Vert;=\u{2016} Verbar;=\u{2016} Vee;=\u{22C1} Vfr;=\u{1D519} Vopf;=\u{1D54D} Vscr;=\u{1D4B1} Vvdash;=\u{22AA} Wcirc;=\u{0174} \
    Wedge;=\u{22C0} Wfr;=\u{1D51A} Wopf;=\u{1D54E} Wscr;=\u{1D4B2} Xfr;=\u{1D51B} Xi;=\u{039E} Xopf;=\u{1D54F} Xscr;=\u{1D4B3} \
    YAcy;=\u{042F} YIcy;=\u{0407} YUcy;=\u{042E} Yacute;=\u{00DD} Yacute=\u{00DD} Ycy;=\u{042B} Ycirc;=\u{0176} Yfr;=\u{1D51C} \
    Yopf;=\u{1D550} Yscr;=\u{1D4B4} Yuml;=\u{0178} ZHcy;=\u{0416} Zacute;=\u{0179} Zcy;=\u{0417} Zcaron;=\u{017D} Zdot;=\u{017B} \
    Zeta;=\u{0396} ZeroWidthSpace;=\u{200B} Zfr;=\u{2128} Zopf;=\u{2124} Zscr;=\u{1D4B5} aacute;=\u{00E1} aacute=\u{00E1} \
    abreve;=\u{0103} acy;=\u{0430} acute;=\u{00B4} acute=\u{00B4} acirc;=\u{00E2} acirc=\u{00E2} acd;=\u{223F} acE;=\u{223E}\u{0333} \
    ac;=\u{223E} aelig;=\u{00E6} aelig=\u{00E6} afr;=\u{1D51E} af;=\u{2061} agrave;=\u{00E0} agrave=\u{00E0} alpha;=\u{03B1} \
    aleph;=\u{2135} alefsym;=\u{2135} amp;=& amp=& amalg;=\u{2A3F} amacr;=\u{0101} angzarr;=\u{237C} angst;=\u{00C5} angsph;=\u{2222} \
    angrtvbd;=\u{299D} angrtvb;=\u{22BE} angrt;=\u{221F} angmsdah;=\u{29AF} angmsdag;=\u{29AE} angmsdaf;=\u{29AD} angmsdae;=\u{29AC} \
    angmsdad;=\u{29AB} angmsdac;=\u{29AA} angmsdab;=\u{29A9} angmsdaa;=\u{29A8} angmsd;=\u{2221} angle;=\u{2220} ange;=\u{29A4} \
    ang;=\u{2220} andv;=\u{2A5A} andslope;=\u{2A58} andd;=\u{2A5C} andand;=\u{2A55} and;=\u{2227} aopf;=\u{1D552} aogon;=\u{0105} \
    approxeq;=\u{224A} approx;=\u{2248} apos;=' apid;=\u{224B} ape;=\u{224A} apacir;=\u{2A6F} apE;=\u{2A70} ap;=\u{2248} aring;=\u{00E5} \
    aring=\u{00E5} asympeq;=\u{224D} asymp;=\u{2248} ast;=* ascr;=\u{1D4B6} atilde;=\u{00E3} atilde=\u{00E3} auml;=\u{00E4} auml=\u{00E4} \
    awint;=\u{2A11} awconint;=\u{2233} bNot;=\u{2AED} barwedge;=\u{2305} barwed;=\u{2305} barvee;=\u{22BD} backsimeq;=\u{22CD} \
    backsim;=\u{223D} backprime;=\u{2035} backepsilon;=\u{03F6} backcong;=\u{224C} bbrktbrk;=\u{23B6} bbrk;=\u{23B5} bcy;=\u{0431} \
    bcong;=\u{224C} bdquo;=\u{201E} between;=\u{226C} beth;=\u{2136} beta;=\u{03B2} bernou;=\u{212C} bepsi;=\u{03F6} bemptyv;=\u{29B0} \
    because;=\u{2235} becaus;=\u{2235} bfr;=\u{1D51F} bigwedge;=\u{22C0} bigvee;=\u{22C1} biguplus;=\u{2A04} bigtriangleup;=\u{25B3} \
    bigtriangledown;=\u{25BD} bigstar;=\u{2605} bigsqcup;=\u{2A06} bigotimes;=\u{2A02} bigoplus;=\u{2A01} bigodot;=\u{2A00} \
    bigcup;=\u{22C3} bigcirc;=\u{25EF} bigcap;=\u{22C2} bkarow;=\u{290D} block;=\u{2588} blk34;=\u{2593} blk14;=\u{2591} blk12;=\u{2592} \
    blank;=\u{2423} blacktriangleright;=\u{25B8} blacktriangleleft;=\u{25C2} blacktriangledown;=\u{25BE} blacktriangle;=\u{25B4} \
    blacksquare;=\u{25AA} blacklozenge;=\u{29EB} bnot;=\u{2310} bnequiv;=\u{2261}\u{20E5} bne;==\u{20E5} boxvr;=\u{251C} boxvl;=\u{2524} \
    boxvh;=\u{253C} boxvR;=\u{255E} boxvL;=\u{2561} boxvH;=\u{256A} boxv;=\u{2502} boxur;=\u{2514} boxul;=\u{2518} boxuR;=\u{2558} \
    boxuL;=\u{255B} boxtimes;=\u{22A0} boxplus;=\u{229E} boxminus;=\u{229F} boxhu;=\u{2534} boxhd;=\u{252C} boxhU;=\u{2568} \
    boxhD;=\u{2565} boxh;=\u{2500} boxdr;=\u{250C} boxdl;=\u{2510} boxdR;=\u{2552} boxdL;=\u{2555} boxbox;=\u{29C9} boxVr;=\u{255F} \
    boxVl;=\u{2562} boxVh;=\u{256B} boxVR;=\u{2560} boxVL;=\u{2563} boxVH;=\u{256C} boxV;=\u{2551} boxUr;=\u{2559} boxUl;=\u{255C} \
    boxUR;=\u{255A} boxUL;=\u{255D} boxHu;=\u{2567} boxHd;=\u{2564} boxHU;=\u{2569} boxHD;=\u{2566} boxH;=\u{2550} boxDr;=\u{2553} \
    boxDl;=\u{2556} boxDR;=\u{2554} boxDL;=\u{2557} bowtie;=\u{22C8} bottom;=\u{22A5} bot;=\u{22A5} bopf;=\u{1D553} bprime;=\u{2035} \
    brvbar;=\u{00A6} brvbar=\u{00A6} breve;=\u{02D8} bsolhsub;=\u{27C8} bsolb;=\u{29C5} bsol;=\\ bsime;=\u{22CD} bsim;=\u{223D} \
    bsemi;=\u{204F} bscr;=\u{1D4B7} bumpeq;=\u{224F} bumpe;=\u{224F} bumpE;=\u{2AAE} bump;=\u{224E} bullet;=\u{2022} bull;=\u{2022} \
    caron;=\u{02C7} caret;=\u{2041} caps;=\u{2229}\u{FE00} capdot;=\u{2A40} capcup;=\u{2A47} capcap;=\u{2A4B} capbrcup;=\u{2A49} \
    capand;=\u{2A44} cap;=\u{2229} cacute;=\u{0107} ccupssm;=\u{2A50} ccups;=\u{2A4C} ccirc;=\u{0109} ccedil;=\u{00E7} ccedil=\u{00E7} \
    ccaron;=\u{010D} ccaps;=\u{2A4D} cdot;=\u{010B} centerdot;=\u{00B7} cent;=\u{00A2} cent=\u{00A2} cemptyv;=\u{29B2} cedil;=\u{00B8} \
    cedil=\u{00B8} cfr;=\u{1D520} chi;=\u{03C7} checkmark;=\u{2713} check;=\u{2713} chcy;=\u{0447} cirscir;=\u{29C2} cirmid;=\u{2AEF} \
    cirfnint;=\u{2A10} cire;=\u{2257} circleddash;=\u{229D} circledcirc;=\u{229A} circledast;=\u{229B} circledS;=\u{24C8} \
    circledR;=\u{00AE} circlearrowright;=\u{21BB} circlearrowleft;=\u{21BA} circeq;=\u{2257} circ;=\u{02C6} cirE;=\u{29C3} cir;=\u{25CB} \
    clubsuit;=\u{2663} clubs;=\u{2663} copysr;=\u{2117} copy;=\u{00A9} copy=\u{00A9} coprod;=\u{2210} copf;=\u{1D554} conint;=\u{222E} \
    congdot;=\u{2A6D} cong;=\u{2245} complexes;=\u{2102} complement;=\u{2201} compfn;=\u{2218} comp;=\u{2201} commat;=@ comma;=, \
    coloneq;=\u{2254} colone;=\u{2254} colon;=: cross;=\u{2717} crarr;=\u{21B5} csupe;=\u{2AD2} csup;=\u{2AD0} csube;=\u{2AD1} \
    csub;=\u{2ACF} cscr;=\u{1D4B8} ctdot;=\u{22EF} cuwed;=\u{22CF} cuvee;=\u{22CE} curvearrowright;=\u{21B7} curvearrowleft;=\u{21B6} \
    curren;=\u{00A4} curren=\u{00A4} curlywedge;=\u{22CF} curlyvee;=\u{22CE} curlyeqsucc;=\u{22DF} curlyeqprec;=\u{22DE} \
    curarrm;=\u{293C} curarr;=\u{21B7} cups;=\u{222A}\u{FE00} cupor;=\u{2A45} cupdot;=\u{228D} cupcup;=\u{2A4A} cupcap;=\u{2A46} \
    cupbrcap;=\u{2A48} cup;=\u{222A} cularrp;=\u{293D} cularr;=\u{21B6} cuesc;=\u{22DF} cuepr;=\u{22DE} cudarrr;=\u{2935} \
    cudarrl;=\u{2938} cwint;=\u{2231} cwconint;=\u{2232} cylcty;=\u{232D} dArr;=\u{21D3} dHar;=\u{2965} dashv;=\u{22A3} dash;=\u{2010} \
    darr;=\u{2193} daleth;=\u{2138} dagger;=\u{2020} dblac;=\u{02DD} dbkarow;=\u{290F} dcy;=\u{0434} dcaron;=\u{010F} ddotseq;=\u{2A77} \
    ddarr;=\u{21CA} ddagger;=\u{2021} dd;=\u{2146} demptyv;=\u{29B1} delta;=\u{03B4} deg;=\u{00B0} deg=\u{00B0} dfr;=\u{1D521} \
    dfisht;=\u{297F} dharr;=\u{21C2} dharl;=\u{21C3} divonx;=\u{22C7} divideontimes;=\u{22C7} divide;=\u{00F7} divide=\u{00F7} \
    div;=\u{00F7} disin;=\u{22F2} digamma;=\u{03DD} die;=\u{00A8} diams;=\u{2666} diamondsuit;=\u{2666} diamond;=\u{22C4} diam;=\u{22C4} \
    djcy;=\u{0452} dlcrop;=\u{230D} dlcorn;=\u{231E} downharpoonright;=\u{21C2} downharpoonleft;=\u{21C3} downdownarrows;=\u{21CA} \
    downarrow;=\u{2193} doublebarwedge;=\u{2306} dotsquare;=\u{22A1} dotplus;=\u{2214} dotminus;=\u{2238} doteqdot;=\u{2251} \
    doteq;=\u{2250} dot;=\u{02D9} dopf;=\u{1D555} dollar;=$ drcrop;=\u{230C} drcorn;=\u{231F} drbkarow;=\u{2910} dstrok;=\u{0111} \
    dsol;=\u{29F6} dscy;=\u{0455} dscr;=\u{1D4B9} dtrif;=\u{25BE} dtri;=\u{25BF} dtdot;=\u{22F1} duhar;=\u{296F} duarr;=\u{21F5} \
    dwangle;=\u{29A6} dzigrarr;=\u{27FF} dzcy;=\u{045F} eDot;=\u{2251} eDDot;=\u{2A77} easter;=\u{2A6E} eacute;=\u{00E9} eacute=\u{00E9} \
    ecy;=\u{044D} ecolon;=\u{2255} ecirc;=\u{00EA} ecirc=\u{00EA} ecir;=\u{2256} ecaron;=\u{011B} edot;=\u{0117} ee;=\u{2147} \
    efr;=\u{1D522} efDot;=\u{2252} egsdot;=\u{2A98} egs;=\u{2A96} egrave;=\u{00E8} egrave=\u{00E8} eg;=\u{2A9A} elsdot;=\u{2A97} \
    els;=\u{2A95} ell;=\u{2113} elinters;=\u{23E7} el;=\u{2A99} emsp;=\u{2003} emsp14;=\u{2005} emsp13;=\u{2004} emptyv;=\u{2205} \
    emptyset;=\u{2205} empty;=\u{2205} emacr;=\u{0113} ensp;=\u{2002} eng;=\u{014B} eopf;=\u{1D556} eogon;=\u{0119} epsiv;=\u{03F5} \
    epsilon;=\u{03B5} epsi;=\u{03B5} eplus;=\u{2A71} eparsl;=\u{29E3} epar;=\u{22D5} eqvparsl;=\u{29E5} equivDD;=\u{2A78} equiv;=\u{2261} \
    equest;=\u{225F} equals;== eqslantless;=\u{2A95} eqslantgtr;=\u{2A96} eqsim;=\u{2242} eqcolon;=\u{2255} eqcirc;=\u{2256} \
    erarr;=\u{2971} erDot;=\u{2253} esim;=\u{2242} esdot;=\u{2250} escr;=\u{212F} eth;=\u{00F0} eth=\u{00F0} eta;=\u{03B7} euro;=\u{20AC} \
    euml;=\u{00EB} euml=\u{00EB} exponentiale;=\u{2147} expectation;=\u{2130} exist;=\u{2203} excl;=! fallingdotseq;=\u{2252} \
    fcy;=\u{0444} female;=\u{2640} ffr;=\u{1D523} ffllig;=\u{FB04} fflig;=\u{FB00} ffilig;=\u{FB03} filig;=\u{FB01} fjlig;=fj \
    fltns;=\u{25B1} fllig;=\u{FB02} flat;=\u{266D} fnof;=\u{0192} forkv;=\u{2AD9} fork;=\u{22D4} forall;=\u{2200} fopf;=\u{1D557} \
    fpartint;=\u{2A0D} frown;=\u{2322} frasl;=\u{2044} frac78;=\u{215E} frac58;=\u{215D} frac56;=\u{215A} frac45;=\u{2158} \
    frac38;=\u{215C} frac35;=\u{2157} frac34;=\u{00BE} frac34=\u{00BE} frac25;=\u{2156} frac23;=\u{2154} frac18;=\u{215B} \
    frac16;=\u{2159} frac15;=\u{2155} frac14;=\u{00BC} frac14=\u{00BC} frac13;=\u{2153} frac12;=\u{00BD} frac12=\u{00BD} fscr;=\u{1D4BB} \
    gEl;=\u{2A8C} gE;=\u{2267} gap;=\u{2A86} gammad;=\u{03DD} gamma;=\u{03B3} gacute;=\u{01F5} gbreve;=\u{011F} gcy;=\u{0433} \
    gcirc;=\u{011D} gdot;=\u{0121} gesles;=\u{2A94} gesl;=\u{22DB}\u{FE00} gesdotol;=\u{2A84} gesdoto;=\u{2A82} gesdot;=\u{2A80} \
    gescc;=\u{2AA9} ges;=\u{2A7E} geqslant;=\u{2A7E} geqq;=\u{2267} geq;=\u{2265} gel;=\u{22DB} ge;=\u{2265} gfr;=\u{1D524} ggg;=\u{22D9} \
    gg;=\u{226B} gimel;=\u{2137} gjcy;=\u{0453} glj;=\u{2AA4} gla;=\u{2AA5} glE;=\u{2A92} gl;=\u{2277} gnsim;=\u{22E7} gneqq;=\u{2269} \
    gneq;=\u{2A88} gne;=\u{2A88} gnapprox;=\u{2A8A} gnap;=\u{2A8A} gnE;=\u{2269} gopf;=\u{1D558} grave;=` gsiml;=\u{2A90} gsime;=\u{2A8E} \
    gsim;=\u{2273} gscr;=\u{210A} gtrsim;=\u{2273} gtrless;=\u{2277} gtreqqless;=\u{2A8C} gtreqless;=\u{22DB} gtrdot;=\u{22D7} \
    gtrarr;=\u{2978} gtrapprox;=\u{2A86} gtquest;=\u{2A7C} gtlPar;=\u{2995} gtdot;=\u{22D7} gtcir;=\u{2A7A} gtcc;=\u{2AA7} gt;=> gt=> \
    gvnE;=\u{2269}\u{FE00} gvertneqq;=\u{2269}\u{FE00} hArr;=\u{21D4} harrw;=\u{21AD} harrcir;=\u{2948} harr;=\u{2194} hardcy;=\u{044A} \
    hamilt;=\u{210B} half;=\u{00BD} hairsp;=\u{200A} hbar;=\u{210F} hcirc;=\u{0125} hercon;=\u{22B9} hellip;=\u{2026} heartsuit;=\u{2665} \
    hearts;=\u{2665} hfr;=\u{1D525} hkswarow;=\u{2926} hksearow;=\u{2925} horbar;=\u{2015} hopf;=\u{1D559} hookrightarrow;=\u{21AA} \
    hookleftarrow;=\u{21A9} homtht;=\u{223B} hoarr;=\u{21FF} hstrok;=\u{0127} hslash;=\u{210F} hscr;=\u{1D4BD} hyphen;=\u{2010} \
    hybull;=\u{2043} iacute;=\u{00ED} iacute=\u{00ED} icy;=\u{0438} icirc;=\u{00EE} icirc=\u{00EE} ic;=\u{2063} iexcl;=\u{00A1} \
    iexcl=\u{00A1} iecy;=\u{0435} ifr;=\u{1D526} iff;=\u{21D4} igrave;=\u{00EC} igrave=\u{00EC} iiota;=\u{2129} iinfin;=\u{29DC} \
    iiint;=\u{222D} iiiint;=\u{2A0C} ii;=\u{2148} ijlig;=\u{0133} imped;=\u{01B5} imof;=\u{22B7} imath;=\u{0131} imagpart;=\u{2111} \
    imagline;=\u{2110} image;=\u{2111} imacr;=\u{012B} intprod;=\u{2A3C} intlarhk;=\u{2A17} intercal;=\u{22BA} integers;=\u{2124} \
    intcal;=\u{22BA} int;=\u{222B} inodot;=\u{0131} infintie;=\u{29DD} infin;=\u{221E} incare;=\u{2105} in;=\u{2208} iota;=\u{03B9} \
    iopf;=\u{1D55A} iogon;=\u{012F} iocy;=\u{0451} iprod;=\u{2A3C} iquest;=\u{00BF} iquest=\u{00BF} isinv;=\u{2208} isinsv;=\u{22F3} \
    isins;=\u{22F4} isindot;=\u{22F5} isinE;=\u{22F9} isin;=\u{2208} iscr;=\u{1D4BE} itilde;=\u{0129} it;=\u{2062} iuml;=\u{00EF} \
    iuml=\u{00EF} iukcy;=\u{0456} jcy;=\u{0439} jcirc;=\u{0135} jfr;=\u{1D527} jmath;=\u{0237} jopf;=\u{1D55B} jsercy;=\u{0458} \
    jscr;=\u{1D4BF} jukcy;=\u{0454} kappav;=\u{03F0} kappa;=\u{03BA} kcy;=\u{043A} kcedil;=\u{0137} kfr;=\u{1D528} kgreen;=\u{0138} \
    khcy;=\u{0445} kjcy;=\u{045C} kopf;=\u{1D55C} kscr;=\u{1D4C0} lAtail;=\u{291B} lArr;=\u{21D0} lAarr;=\u{21DA} lBarr;=\u{290E} \
    lEg;=\u{2A8B} lE;=\u{2266} lHar;=\u{2962} lates;=\u{2AAD}\u{FE00} late;=\u{2AAD} latail;=\u{2919} lat;=\u{2AAB} larrtl;=\u{21A2} \
    larrsim;=\u{2973} larrpl;=\u{2939} larrlp;=\u{21AB} larrhk;=\u{21A9} larrfs;=\u{291D} larrbfs;=\u{291F} larrb;=\u{21E4} \
    larr;=\u{2190} laquo;=\u{00AB} laquo=\u{00AB} lap;=\u{2A85} langle;=\u{27E8} langd;=\u{2991} lang;=\u{27E8} lambda;=\u{03BB} \
    lagran;=\u{2112} laemptyv;=\u{29B4} lacute;=\u{013A} lbrkslu;=\u{298D} lbrksld;=\u{298F} lbrke;=\u{298B} lbrack;=[ lbrace;={ \
    lbbrk;=\u{2772} lbarr;=\u{290C} lcy;=\u{043B} lcub;={ lceil;=\u{2308} lcedil;=\u{013C} lcaron;=\u{013E} ldsh;=\u{21B2} \
    ldrushar;=\u{294B} ldrdhar;=\u{2967} ldquor;=\u{201E} ldquo;=\u{201C} ldca;=\u{2936} lesssim;=\u{2272} lessgtr;=\u{2276} \
    lesseqqgtr;=\u{2A8B} lesseqgtr;=\u{22DA} lessdot;=\u{22D6} lessapprox;=\u{2A85} lesges;=\u{2A93} lesg;=\u{22DA}\u{FE00} \
    lesdotor;=\u{2A83} lesdoto;=\u{2A81} lesdot;=\u{2A7F} lescc;=\u{2AA8} les;=\u{2A7D} leqslant;=\u{2A7D} leqq;=\u{2266} leq;=\u{2264} \
    leg;=\u{22DA} leftthreetimes;=\u{22CB} leftrightsquigarrow;=\u{21AD} leftrightharpoons;=\u{21CB} leftrightarrows;=\u{21C6} \
    leftrightarrow;=\u{2194} leftleftarrows;=\u{21C7} leftharpoonup;=\u{21BC} leftharpoondown;=\u{21BD} leftarrowtail;=\u{21A2} \
    leftarrow;=\u{2190} le;=\u{2264} lfr;=\u{1D529} lfloor;=\u{230A} lfisht;=\u{297C} lgE;=\u{2A91} lg;=\u{2276} lhblk;=\u{2584} \
    lharul;=\u{296A} lharu;=\u{21BC} lhard;=\u{21BD} ljcy;=\u{0459} lltri;=\u{25FA} llhard;=\u{296B} llcorner;=\u{231E} llarr;=\u{21C7} \
    ll;=\u{226A} lmoustache;=\u{23B0} lmoust;=\u{23B0} lmidot;=\u{0140} lnsim;=\u{22E6} lneqq;=\u{2268} lneq;=\u{2A87} lne;=\u{2A87} \
    lnapprox;=\u{2A89} lnap;=\u{2A89} lnE;=\u{2268} lozf;=\u{29EB} lozenge;=\u{25CA} loz;=\u{25CA} lowbar;=_ lowast;=\u{2217} \
    lotimes;=\u{2A34} loplus;=\u{2A2D} lopf;=\u{1D55D} lopar;=\u{2985} looparrowright;=\u{21AC} looparrowleft;=\u{21AB} \
    longrightarrow;=\u{27F6} longmapsto;=\u{27FC} longleftrightarrow;=\u{27F7} longleftarrow;=\u{27F5} lobrk;=\u{27E6} loarr;=\u{21FD} \
    loang;=\u{27EC} lparlt;=\u{2993} lpar;=( lrtri;=\u{22BF} lrm;=\u{200E} lrhard;=\u{296D} lrhar;=\u{21CB} lrcorner;=\u{231F} \
    lrarr;=\u{21C6} lstrok;=\u{0142} lsquor;=\u{201A} lsquo;=\u{2018} lsqb;=[ lsimg;=\u{2A8F} lsime;=\u{2A8D} lsim;=\u{2272} \
    lsh;=\u{21B0} lscr;=\u{1D4C1} lsaquo;=\u{2039} ltrif;=\u{25C2} ltrie;=\u{22B4} ltri;=\u{25C3} ltrPar;=\u{2996} ltquest;=\u{2A7B} \
    ltlarr;=\u{2976} ltimes;=\u{22C9} lthree;=\u{22CB} ltdot;=\u{22D6} ltcir;=\u{2A79} ltcc;=\u{2AA6} lt;=< lt=< luruhar;=\u{2966} \
    lurdshar;=\u{294A} lvnE;=\u{2268}\u{FE00} lvertneqq;=\u{2268}\u{FE00} mDDot;=\u{223A} marker;=\u{25AE} mapstoup;=\u{21A5} \
    mapstoleft;=\u{21A4} mapstodown;=\u{21A7} mapsto;=\u{21A6} map;=\u{21A6} maltese;=\u{2720} malt;=\u{2720} male;=\u{2642} \
    macr;=\u{00AF} macr=\u{00AF} mcy;=\u{043C} mcomma;=\u{2A29} mdash;=\u{2014} measuredangle;=\u{2221} mfr;=\u{1D52A} mho;=\u{2127} \
    minusdu;=\u{2A2A} minusd;=\u{2238} minusb;=\u{229F} minus;=\u{2212} middot;=\u{00B7} middot=\u{00B7} midcir;=\u{2AF0} midast;=* \
    mid;=\u{2223} micro;=\u{00B5} micro=\u{00B5} mldr;=\u{2026} mlcp;=\u{2ADB} mnplus;=\u{2213} mopf;=\u{1D55E} models;=\u{22A7} \
    mp;=\u{2213} mstpos;=\u{223E} mscr;=\u{1D4C2} mumap;=\u{22B8} multimap;=\u{22B8} mu;=\u{03BC} nGtv;=\u{226B}\u{0338} \
    nGt;=\u{226B}\u{20D2} nGg;=\u{22D9}\u{0338} nLtv;=\u{226A}\u{0338} nLt;=\u{226A}\u{20D2} nLl;=\u{22D8}\u{0338} \
    nLeftrightarrow;=\u{21CE} nLeftarrow;=\u{21CD} nRightarrow;=\u{21CF} nVdash;=\u{22AE} nVDash;=\u{22AF} naturals;=\u{2115} \
    natural;=\u{266E} natur;=\u{266E} napprox;=\u{2249} napos;=\u{0149} napid;=\u{224B}\u{0338} napE;=\u{2A70}\u{0338} nap;=\u{2249} \
    nang;=\u{2220}\u{20D2} nacute;=\u{0144} nabla;=\u{2207} nbumpe;=\u{224F}\u{0338} nbump;=\u{224E}\u{0338} nbsp;=\u{00A0} nbsp=\u{00A0} \
    ncy;=\u{043D} ncup;=\u{2A42} ncongdot;=\u{2A6D}\u{0338} ncong;=\u{2247} ncedil;=\u{0146} ncaron;=\u{0148} ncap;=\u{2A43} \
    ndash;=\u{2013} nexists;=\u{2204} nexist;=\u{2204} nesim;=\u{2242}\u{0338} nesear;=\u{2928} nequiv;=\u{2262} nedot;=\u{2250}\u{0338} \
    nearrow;=\u{2197} nearr;=\u{2197} nearhk;=\u{2924} neArr;=\u{21D7} ne;=\u{2260} nfr;=\u{1D52B} ngtr;=\u{226F} ngt;=\u{226F} \
    ngsim;=\u{2275} nges;=\u{2A7E}\u{0338} ngeqslant;=\u{2A7E}\u{0338} ngeqq;=\u{2267}\u{0338} ngeq;=\u{2271} nge;=\u{2271} \
    ngE;=\u{2267}\u{0338} nhpar;=\u{2AF2} nharr;=\u{21AE} nhArr;=\u{21CE} niv;=\u{220B} nisd;=\u{22FA} nis;=\u{22FC} ni;=\u{220B} \
    njcy;=\u{045A} nltrie;=\u{22EC} nltri;=\u{22EA} nlt;=\u{226E} nlsim;=\u{2274} nless;=\u{226E} nles;=\u{2A7D}\u{0338} \
    nleqslant;=\u{2A7D}\u{0338} nleqq;=\u{2266}\u{0338} nleq;=\u{2270} nleftrightarrow;=\u{21AE} nleftarrow;=\u{219A} nle;=\u{2270} \
    nldr;=\u{2025} nlarr;=\u{219A} nlE;=\u{2266}\u{0338} nlArr;=\u{21CD} nmid;=\u{2224} notnivc;=\u{22FD} notnivb;=\u{22FE} \
    notniva;=\u{220C} notni;=\u{220C} notinvc;=\u{22F6} notinvb;=\u{22F7} notinva;=\u{2209} notindot;=\u{22F5}\u{0338} \
    notinE;=\u{22F9}\u{0338} notin;=\u{2209} not;=\u{00AC} not=\u{00AC} nopf;=\u{1D55F} npreceq;=\u{2AAF}\u{0338} nprec;=\u{2280} \
    npre;=\u{2AAF}\u{0338} nprcue;=\u{22E0} npr;=\u{2280} npolint;=\u{2A14} npart;=\u{2202}\u{0338} nparsl;=\u{2AFD}\u{20E5} \
    nparallel;=\u{2226} npar;=\u{2226} nrtrie;=\u{22ED} nrtri;=\u{22EB} nrightarrow;=\u{219B} nrarrw;=\u{219D}\u{0338} \
    nrarrc;=\u{2933}\u{0338} nrarr;=\u{219B} nrArr;=\u{21CF} nsupseteqq;=\u{2AC6}\u{0338} nsupseteq;=\u{2289} nsupset;=\u{2283}\u{20D2} \
    nsupe;=\u{2289} nsupE;=\u{2AC6}\u{0338} nsup;=\u{2285} nsucceq;=\u{2AB0}\u{0338} nsucc;=\u{2281} nsubseteqq;=\u{2AC5}\u{0338} \
    nsubseteq;=\u{2288} nsubset;=\u{2282}\u{20D2} nsube;=\u{2288} nsubE;=\u{2AC5}\u{0338} nsub;=\u{2284} nsqsupe;=\u{22E3} \
    nsqsube;=\u{22E2} nspar;=\u{2226} nsmid;=\u{2224} nsimeq;=\u{2244} nsime;=\u{2244} nsim;=\u{2241} nshortparallel;=\u{2226} \
    nshortmid;=\u{2224} nscr;=\u{1D4C3} nsce;=\u{2AB0}\u{0338} nsccue;=\u{22E1} nsc;=\u{2281} ntrianglerighteq;=\u{22ED} \
    ntriangleright;=\u{22EB} ntrianglelefteq;=\u{22EC} ntriangleleft;=\u{22EA} ntlg;=\u{2278} ntilde;=\u{00F1} ntilde=\u{00F1} \
    ntgl;=\u{2279} numsp;=\u{2007} numero;=\u{2116} num;=# nu;=\u{03BD} nvsim;=\u{223C}\u{20D2} nvrtrie;=\u{22B5}\u{20D2} \
    nvrArr;=\u{2903} nvltrie;=\u{22B4}\u{20D2} nvlt;=<\u{20D2} nvle;=\u{2264}\u{20D2} nvlArr;=\u{2902} nvinfin;=\u{29DE} nvgt;=>\u{20D2} \
    nvge;=\u{2265}\u{20D2} nvdash;=\u{22AC} nvap;=\u{224D}\u{20D2} nvHarr;=\u{2904} nvDash;=\u{22AD} nwnear;=\u{2927} nwarrow;=\u{2196} \
    nwarr;=\u{2196} nwarhk;=\u{2923} nwArr;=\u{21D6} oS;=\u{24C8} oast;=\u{229B} oacute;=\u{00F3} oacute=\u{00F3} ocy;=\u{043E} \
    ocirc;=\u{00F4} ocirc=\u{00F4} ocir;=\u{229A} odsold;=\u{29BC} odot;=\u{2299} odiv;=\u{2A38} odblac;=\u{0151} odash;=\u{229D} \
    oelig;=\u{0153} ofr;=\u{1D52C} ofcir;=\u{29BF} ogt;=\u{29C1} ograve;=\u{00F2} ograve=\u{00F2} ogon;=\u{02DB} ohm;=\u{03A9} \
    ohbar;=\u{29B5} oint;=\u{222E} olt;=\u{29C0} oline;=\u{203E} olcross;=\u{29BB} olcir;=\u{29BE} olarr;=\u{21BA} ominus;=\u{2296} \
    omid;=\u{29B6} omicron;=\u{03BF} omega;=\u{03C9} omacr;=\u{014D} oopf;=\u{1D560} oplus;=\u{2295} operp;=\u{29B9} opar;=\u{29B7} \
    orv;=\u{2A5B} orslope;=\u{2A57} oror;=\u{2A56} origof;=\u{22B6} ordm;=\u{00BA} ordm=\u{00BA} ordf;=\u{00AA} ordf=\u{00AA} \
    orderof;=\u{2134} order;=\u{2134} ord;=\u{2A5D} orarr;=\u{21BB} or;=\u{2228} osol;=\u{2298} oslash;=\u{00F8} oslash=\u{00F8} \
    oscr;=\u{2134} otimesas;=\u{2A36} otimes;=\u{2297} otilde;=\u{00F5} otilde=\u{00F5} ouml;=\u{00F6} ouml=\u{00F6} ovbar;=\u{233D} \
    part;=\u{2202} parsl;=\u{2AFD} parsim;=\u{2AF3} parallel;=\u{2225} para;=\u{00B6} para=\u{00B6} par;=\u{2225} pcy;=\u{043F} \
    pertenk;=\u{2031} perp;=\u{22A5} permil;=\u{2030} period;=. percnt;=% pfr;=\u{1D52D} phone;=\u{260E} phmmat;=\u{2133} phiv;=\u{03D5} \
    phi;=\u{03C6} piv;=\u{03D6} pitchfork;=\u{22D4} pi;=\u{03C0} plustwo;=\u{2A27} plussim;=\u{2A26} plusmn;=\u{00B1} plusmn=\u{00B1} \
    pluse;=\u{2A72} plusdu;=\u{2A25} plusdo;=\u{2214} pluscir;=\u{2A22} plusb;=\u{229E} plusacir;=\u{2A23} plus;=+ plankv;=\u{210F} \
    planckh;=\u{210E} planck;=\u{210F} pm;=\u{00B1} pound;=\u{00A3} pound=\u{00A3} popf;=\u{1D561} pointint;=\u{2A15} prurel;=\u{22B0} \
    prsim;=\u{227E} propto;=\u{221D} prop;=\u{221D} profsurf;=\u{2313} profline;=\u{2312} profalar;=\u{232E} prod;=\u{220F} \
    prnsim;=\u{22E8} prnap;=\u{2AB9} prnE;=\u{2AB5} primes;=\u{2119} prime;=\u{2032} precsim;=\u{227E} precnsim;=\u{22E8} \
    precneqq;=\u{2AB5} precnapprox;=\u{2AB9} preceq;=\u{2AAF} preccurlyeq;=\u{227C} precapprox;=\u{2AB7} prec;=\u{227A} pre;=\u{2AAF} \
    prcue;=\u{227C} prap;=\u{2AB7} prE;=\u{2AB3} pr;=\u{227A} psi;=\u{03C8} pscr;=\u{1D4C5} puncsp;=\u{2008} qfr;=\u{1D52E} \
    qint;=\u{2A0C} qopf;=\u{1D562} qprime;=\u{2057} qscr;=\u{1D4C6} quot;=\" quot=\" questeq;=\u{225F} quest;=? quatint;=\u{2A16} \
    quaternions;=\u{210D} rAtail;=\u{291C} rArr;=\u{21D2} rAarr;=\u{21DB} rBarr;=\u{290F} rHar;=\u{2964} rationals;=\u{211A} \
    ratio;=\u{2236} ratail;=\u{291A} rarrw;=\u{219D} rarrtl;=\u{21A3} rarrsim;=\u{2974} rarrpl;=\u{2945} rarrlp;=\u{21AC} \
    rarrhk;=\u{21AA} rarrfs;=\u{291E} rarrc;=\u{2933} rarrbfs;=\u{2920} rarrb;=\u{21E5} rarrap;=\u{2975} rarr;=\u{2192} raquo;=\u{00BB} \
    raquo=\u{00BB} rangle;=\u{27E9} range;=\u{29A5} rangd;=\u{2992} rang;=\u{27E9} raemptyv;=\u{29B3} radic;=\u{221A} racute;=\u{0155} \
    race;=\u{223D}\u{0331} rbrkslu;=\u{2990} rbrksld;=\u{298E} rbrke;=\u{298C} rbrack;=] rbrace;=} rbbrk;=\u{2773} rbarr;=\u{290D} \
    rcy;=\u{0440} rcub;=} rceil;=\u{2309} rcedil;=\u{0157} rcaron;=\u{0159} rdsh;=\u{21B3} rdquor;=\u{201D} rdquo;=\u{201D} \
    rdldhar;=\u{2969} rdca;=\u{2937} reg;=\u{00AE} reg=\u{00AE} rect;=\u{25AD} reals;=\u{211D} realpart;=\u{211C} realine;=\u{211B} \
    real;=\u{211C} rfr;=\u{1D52F} rfloor;=\u{230B} rfisht;=\u{297D} rhov;=\u{03F1} rho;=\u{03C1} rharul;=\u{296C} rharu;=\u{21C0} \
    rhard;=\u{21C1} risingdotseq;=\u{2253} ring;=\u{02DA} rightthreetimes;=\u{22CC} rightsquigarrow;=\u{219D} rightrightarrows;=\u{21C9} \
    rightleftharpoons;=\u{21CC} rightleftarrows;=\u{21C4} rightharpoonup;=\u{21C0} rightharpoondown;=\u{21C1} rightarrowtail;=\u{21A3} \
    rightarrow;=\u{2192} rlm;=\u{200F} rlhar;=\u{21CC} rlarr;=\u{21C4} rmoustache;=\u{23B1} rmoust;=\u{23B1} rnmid;=\u{2AEE} \
    rotimes;=\u{2A35} roplus;=\u{2A2E} ropf;=\u{1D563} ropar;=\u{2986} robrk;=\u{27E7} roarr;=\u{21FE} roang;=\u{27ED} rppolint;=\u{2A12} \
    rpargt;=\u{2994} rpar;=) rrarr;=\u{21C9} rsquor;=\u{2019} rsquo;=\u{2019} rsqb;=] rsh;=\u{21B1} rscr;=\u{1D4C7} rsaquo;=\u{203A} \
    rtriltri;=\u{29CE} rtrif;=\u{25B8} rtrie;=\u{22B5} rtri;=\u{25B9} rtimes;=\u{22CA} rthree;=\u{22CC} ruluhar;=\u{2968} rx;=\u{211E} \
    sacute;=\u{015B} sbquo;=\u{201A} scy;=\u{0441} scsim;=\u{227F} scpolint;=\u{2A13} scnsim;=\u{22E9} scnap;=\u{2ABA} scnE;=\u{2AB6} \
    scirc;=\u{015D} scedil;=\u{015F} sce;=\u{2AB0} sccue;=\u{227D} scaron;=\u{0161} scap;=\u{2AB8} scE;=\u{2AB4} sc;=\u{227B} \
    sdote;=\u{2A66} sdotb;=\u{22A1} sdot;=\u{22C5} sext;=\u{2736} setmn;=\u{2216} setminus;=\u{2216} seswar;=\u{2929} semi;=; \
    sect;=\u{00A7} sect=\u{00A7} searrow;=\u{2198} searr;=\u{2198} searhk;=\u{2925} seArr;=\u{21D8} sfrown;=\u{2322} sfr;=\u{1D530} \
    shy;=\u{00AD} shy=\u{00AD} shortparallel;=\u{2225} shortmid;=\u{2223} shcy;=\u{0448} shchcy;=\u{0449} sharp;=\u{266F} \
    simrarr;=\u{2972} simplus;=\u{2A24} simne;=\u{2246} simlE;=\u{2A9F} siml;=\u{2A9D} simgE;=\u{2AA0} simg;=\u{2A9E} simeq;=\u{2243} \
    sime;=\u{2243} simdot;=\u{2A6A} sim;=\u{223C} sigmav;=\u{03C2} sigmaf;=\u{03C2} sigma;=\u{03C3} slarr;=\u{2190} \
    smtes;=\u{2AAC}\u{FE00} smte;=\u{2AAC} smt;=\u{2AAA} smile;=\u{2323} smid;=\u{2223} smeparsl;=\u{29E4} smashp;=\u{2A33} \
    smallsetminus;=\u{2216} sopf;=\u{1D564} solbar;=\u{233F} solb;=\u{29C4} sol;=/ softcy;=\u{044C} spar;=\u{2225} spadesuit;=\u{2660} \
    spades;=\u{2660} squf;=\u{25AA} squarf;=\u{25AA} square;=\u{25A1} squ;=\u{25A1} sqsupseteq;=\u{2292} sqsupset;=\u{2290} \
    sqsupe;=\u{2292} sqsup;=\u{2290} sqsubseteq;=\u{2291} sqsubset;=\u{228F} sqsube;=\u{2291} sqsub;=\u{228F} sqcups;=\u{2294}\u{FE00} \
    sqcup;=\u{2294} sqcaps;=\u{2293}\u{FE00} sqcap;=\u{2293} srarr;=\u{2192} sstarf;=\u{22C6} ssmile;=\u{2323} ssetmn;=\u{2216} \
    sscr;=\u{1D4C8} strns;=\u{00AF} straightphi;=\u{03D5} straightepsilon;=\u{03F5} starf;=\u{2605} star;=\u{2606} supsup;=\u{2AD6} \
    supsub;=\u{2AD4} supsim;=\u{2AC8} supsetneqq;=\u{2ACC} supsetneq;=\u{228B} supseteqq;=\u{2AC6} supseteq;=\u{2287} supset;=\u{2283} \
    supplus;=\u{2AC0} supne;=\u{228B} supnE;=\u{2ACC} supmult;=\u{2AC2} suplarr;=\u{297B} suphsub;=\u{2AD7} suphsol;=\u{27C9} \
    supedot;=\u{2AC4} supe;=\u{2287} supdsub;=\u{2AD8} supdot;=\u{2ABE} supE;=\u{2AC6} sup;=\u{2283} sup3;=\u{00B3} sup3=\u{00B3} \
    sup2;=\u{00B2} sup2=\u{00B2} sup1;=\u{00B9} sup1=\u{00B9} sung;=\u{266A} sum;=\u{2211} succsim;=\u{227F} succnsim;=\u{22E9} \
    succneqq;=\u{2AB6} succnapprox;=\u{2ABA} succeq;=\u{2AB0} succcurlyeq;=\u{227D} succapprox;=\u{2AB8} succ;=\u{227B} subsup;=\u{2AD3} \
    subsub;=\u{2AD5} subsim;=\u{2AC7} subsetneqq;=\u{2ACB} subsetneq;=\u{228A} subseteqq;=\u{2AC5} subseteq;=\u{2286} subset;=\u{2282} \
    subrarr;=\u{2979} subplus;=\u{2ABF} subne;=\u{228A} subnE;=\u{2ACB} submult;=\u{2AC1} subedot;=\u{2AC3} sube;=\u{2286} \
    subdot;=\u{2ABD} subE;=\u{2AC5} sub;=\u{2282} swnwar;=\u{292A} swarrow;=\u{2199} swarr;=\u{2199} swarhk;=\u{2926} swArr;=\u{21D9} \
    szlig;=\u{00DF} szlig=\u{00DF} tau;=\u{03C4} target;=\u{2316} tbrk;=\u{23B4} tcy;=\u{0442} tcedil;=\u{0163} tcaron;=\u{0165} \
    tdot;=\u{20DB} telrec;=\u{2315} tfr;=\u{1D531} thorn;=\u{00FE} thorn=\u{00FE} thksim;=\u{223C} thkap;=\u{2248} thinsp;=\u{2009} \
    thicksim;=\u{223C} thickapprox;=\u{2248} thetav;=\u{03D1} thetasym;=\u{03D1} theta;=\u{03B8} therefore;=\u{2234} there4;=\u{2234} \
    tint;=\u{222D} timesd;=\u{2A30} timesbar;=\u{2A31} timesb;=\u{22A0} times;=\u{00D7} times=\u{00D7} tilde;=\u{02DC} tosa;=\u{2929} \
    topfork;=\u{2ADA} topf;=\u{1D565} topcir;=\u{2AF1} topbot;=\u{2336} top;=\u{22A4} toea;=\u{2928} tprime;=\u{2034} trpezium;=\u{23E2} \
    tritime;=\u{2A3B} trisb;=\u{29CD} triplus;=\u{2A39} triminus;=\u{2A3A} trie;=\u{225C} tridot;=\u{25EC} trianglerighteq;=\u{22B5} \
    triangleright;=\u{25B9} triangleq;=\u{225C} trianglelefteq;=\u{22B4} triangleleft;=\u{25C3} triangledown;=\u{25BF} triangle;=\u{25B5} \
    trade;=\u{2122} tstrok;=\u{0167} tshcy;=\u{045B} tscy;=\u{0446} tscr;=\u{1D4C9} twoheadrightarrow;=\u{21A0} \
    twoheadleftarrow;=\u{219E} twixt;=\u{226C} uArr;=\u{21D1} uHar;=\u{2963} uarr;=\u{2191} uacute;=\u{00FA} uacute=\u{00FA} \
    ubreve;=\u{016D} ubrcy;=\u{045E} ucy;=\u{0443} ucirc;=\u{00FB} ucirc=\u{00FB} udhar;=\u{296E} udblac;=\u{0171} udarr;=\u{21C5} \
    ufr;=\u{1D532} ufisht;=\u{297E} ugrave;=\u{00F9} ugrave=\u{00F9} uhblk;=\u{2580} uharr;=\u{21BE} uharl;=\u{21BF} ultri;=\u{25F8} \
    ulcrop;=\u{230F} ulcorner;=\u{231C} ulcorn;=\u{231C} uml;=\u{00A8} uml=\u{00A8} umacr;=\u{016B} uopf;=\u{1D566} uogon;=\u{0173} \
    upuparrows;=\u{21C8} upsilon;=\u{03C5} upsih;=\u{03D2} upsi;=\u{03C5} uplus;=\u{228E} upharpoonright;=\u{21BE} \
    upharpoonleft;=\u{21BF} updownarrow;=\u{2195} uparrow;=\u{2191} urtri;=\u{25F9} uring;=\u{016F} urcrop;=\u{230E} urcorner;=\u{231D} \
    urcorn;=\u{231D} uscr;=\u{1D4CA} utrif;=\u{25B4} utri;=\u{25B5} utilde;=\u{0169} utdot;=\u{22F0} uuml;=\u{00FC} uuml=\u{00FC} \
    uuarr;=\u{21C8} uwangle;=\u{29A7} vArr;=\u{21D5} vBarv;=\u{2AE9} vBar;=\u{2AE8} vDash;=\u{22A8} vartriangleright;=\u{22B3} \
    vartriangleleft;=\u{22B2} vartheta;=\u{03D1} varsupsetneqq;=\u{2ACC}\u{FE00} varsupsetneq;=\u{228B}\u{FE00} \
    varsubsetneqq;=\u{2ACB}\u{FE00} varsubsetneq;=\u{228A}\u{FE00} varsigma;=\u{03C2} varrho;=\u{03F1} varr;=\u{2195} varpropto;=\u{221D} \
    varpi;=\u{03D6} varphi;=\u{03D5} varnothing;=\u{2205} varkappa;=\u{03F0} varepsilon;=\u{03F5} vangrt;=\u{299C} vcy;=\u{0432} \
    vdash;=\u{22A2} vert;=| verbar;=| vellip;=\u{22EE} veeeq;=\u{225A} veebar;=\u{22BB} vee;=\u{2228} vfr;=\u{1D533} vltri;=\u{22B2} \
    vnsup;=\u{2283}\u{20D2} vnsub;=\u{2282}\u{20D2} vopf;=\u{1D567} vprop;=\u{221D} vrtri;=\u{22B3} vsupne;=\u{228B}\u{FE00} \
    vsupnE;=\u{2ACC}\u{FE00} vsubne;=\u{228A}\u{FE00} vsubnE;=\u{2ACB}\u{FE00} vscr;=\u{1D4CB} vzigzag;=\u{299A} wcirc;=\u{0175} \
    weierp;=\u{2118} wedgeq;=\u{2259} wedge;=\u{2227} wedbar;=\u{2A5F} wfr;=\u{1D534} wopf;=\u{1D568} wp;=\u{2118} wreath;=\u{2240} \
    wr;=\u{2240} wscr;=\u{1D4CC} xcup;=\u{22C3} xcirc;=\u{25EF} xcap;=\u{22C2} xdtri;=\u{25BD} xfr;=\u{1D535} xharr;=\u{27F7} \
    xhArr;=\u{27FA} xi;=\u{03BE} xlarr;=\u{27F5} xlArr;=\u{27F8} xmap;=\u{27FC} xnis;=\u{22FB} xotime;=\u{2A02} xoplus;=\u{2A01} \
    xopf;=\u{1D569} xodot;=\u{2A00} xrarr;=\u{27F6} xrArr;=\u{27F9} xsqcup;=\u{2A06} xscr;=\u{1D4CD} xutri;=\u{25B3} xuplus;=\u{2A04} \
    xvee;=\u{22C1} xwedge;=\u{22C0} yacy;=\u{044F} yacute;=\u{00FD} yacute=\u{00FD} ycy;=\u{044B} ycirc;=\u{0177} yen;=\u{00A5} \
    yen=\u{00A5} yfr;=\u{1D536} yicy;=\u{0457} yopf;=\u{1D56A} yscr;=\u{1D4CE} yuml;=\u{00FF} yuml=\u{00FF} yucy;=\u{044E} \
    zacute;=\u{017A} zcy;=\u{0437} zcaron;=\u{017E} zdot;=\u{017C} zeta;=\u{03B6} zeetrf;=\u{2128} zfr;=\u{1D537} zhcy;=\u{0436} \
    zigrarr;=\u{21DD} zopf;=\u{1D56B} zscr;=\u{1D4CF} zwnj;=\u{200C} zwj;=\u{200D} \
";

// Where each part begins, by its two letters, which go from `A` to `z`, and where the last one ends.
#[rattlefmt::skip]
pub(crate) static PARTS: [u16; 3365] = [
    0, 0, 0, 0, 0, 19, 19, 19, 19, 19, 19, 19, 19, 32, 32, 32, 32, 32, 32, 32, 32, 32, 32, 32, 32, 32, 32, 32, 32, 32, 32, 32, 32, 53,
    64, 91, 91, 91, 101, 122, 122, 122, 122, 122, 132, 142, 151, 172, 191, 191, 210, 233, 254, 271, 271, 271, 271, 271, 271, 271, 271,
    271, 271, 271, 271, 271, 271, 271, 271, 271, 271, 271, 271, 271, 271, 271, 271, 271, 271, 271, 271, 271, 271, 271, 271, 271, 271,
    271, 271, 271, 271, 308, 308, 316, 316, 354, 364, 364, 364, 364, 364, 364, 364, 364, 364, 375, 375, 375, 385, 395, 395, 407, 407,
    407, 407, 407, 407, 407, 407, 407, 407, 407, 407, 407, 416, 416, 416, 416, 416, 416, 416, 433, 433, 433, 433, 433, 433, 433, 433,
    433, 433, 433, 433, 433, 433, 433, 433, 433, 433, 492, 492, 547, 556, 582, 591, 591, 599, 664, 664, 664, 742, 742, 742, 875, 875,
    875, 886, 897, 897, 918, 918, 918, 918, 918, 918, 918, 918, 918, 940, 940, 940, 940, 940, 940, 949, 949, 949, 949, 949, 949, 949,
    949, 949, 958, 958, 958, 958, 958, 958, 958, 967, 967, 967, 967, 967, 967, 967, 1000, 1000, 1019, 1019, 1038, 1048, 1048, 1048, 1188,
    1188, 1188, 1188, 1188, 1188, 1824, 1824, 1824, 1824, 1846, 1846, 1846, 1846, 1846, 1846, 1846, 1846, 1846, 1846, 1846, 1846, 1846,
    1846, 1846, 1846, 1846, 1846, 1846, 1846, 1846, 1854, 1854, 1854, 1854, 1854, 1854, 1869, 1869, 1869, 1869, 1869, 1869, 1869, 1869,
    1869, 1869, 1869, 1869, 1869, 1890, 1890, 1928, 1937, 1937, 1947, 1968, 1968, 1968, 1968, 1968, 1981, 2039, 2039, 2060, 2072, 2116,
    2116, 2136, 2144, 2161, 2161, 2161, 2191, 2191, 2191, 2191, 2191, 2191, 2191, 2191, 2191, 2191, 2191, 2191, 2191, 2191, 2191, 2191,
    2191, 2191, 2191, 2191, 2191, 2191, 2191, 2191, 2191, 2191, 2191, 2191, 2191, 2191, 2191, 2191, 2191, 2191, 2191, 2191, 2191, 2199,
    2199, 2199, 2209, 2209, 2209, 2259, 2259, 2259, 2259, 2259, 2259, 2298, 2298, 2298, 2298, 2308, 2308, 2308, 2308, 2308, 2308, 2308,
    2308, 2308, 2308, 2308, 2308, 2308, 2308, 2308, 2308, 2308, 2317, 2317, 2317, 2317, 2317, 2317, 2317, 2317, 2317, 2317, 2328, 2328,
    2328, 2328, 2328, 2328, 2328, 2328, 2328, 2328, 2328, 2328, 2328, 2349, 2360, 2389, 2398, 2398, 2408, 2416, 2416, 2416, 2416, 2416,
    2416, 2416, 2416, 2427, 2427, 2427, 2567, 2578, 2586, 2586, 2586, 2586, 2586, 2586, 2586, 2597, 2597, 2597, 2597, 2597, 2597, 2597,
    2597, 2597, 2597, 2597, 2597, 2597, 2597, 2597, 2597, 2597, 2597, 2597, 2597, 2597, 2597, 2597, 2597, 2597, 2597, 2597, 2597, 2597,
    2597, 2597, 2597, 2614, 2614, 2624, 2624, 2624, 2633, 2633, 2633, 2651, 2651, 2651, 2651, 2651, 2651, 2681, 2681, 2681, 2681, 2702,
    2702, 2735, 2735, 2735, 2735, 2735, 2735, 2735, 2735, 2735, 2735, 2744, 2744, 2744, 2744, 2744, 2754, 2754, 2754, 2754, 2754, 2763,
    2763, 2763, 2763, 2763, 2763, 2763, 2763, 2763, 2763, 2763, 2763, 2763, 2763, 2763, 2763, 2763, 2763, 2784, 2784, 2811, 2820, 2820,
    2829, 2850, 2850, 2850, 2850, 2850, 2850, 2897, 2978, 3008, 3008, 3008, 3008, 3018, 3029, 3056, 3056, 3056, 3056, 3056, 3056, 3056,
    3056, 3056, 3056, 3056, 3056, 3056, 3056, 3056, 3056, 3056, 3056, 3056, 3056, 3056, 3056, 3056, 3056, 3056, 3056, 3056, 3056, 3056,
    3056, 3056, 3056, 3056, 3056, 3056, 3056, 3056, 3056, 3056, 3056, 3074, 3074, 3074, 3084, 3084, 3084, 3084, 3084, 3084, 3084, 3084,
    3084, 3095, 3095, 3095, 3095, 3117, 3117, 3127, 3127, 3127, 3127, 3127, 3127, 3127, 3127, 3127, 3127, 3127, 3127, 3127, 3136, 3136,
    3145, 3145, 3145, 3145, 3145, 3145, 3145, 3145, 3145, 3145, 3145, 3145, 3145, 3145, 3145, 3145, 3145, 3145, 3145, 3145, 3145, 3145,
    3145, 3155, 3155, 3174, 3174, 3174, 3184, 3184, 3184, 3184, 3184, 3184, 3184, 3184, 3184, 3195, 3195, 3195, 3195, 3206, 3206, 3206,
    3206, 3206, 3206, 3206, 3206, 3206, 3206, 3206, 3206, 3206, 3206, 3206, 3206, 3206, 3215, 3215, 3215, 3215, 3215, 3215, 3215, 3215,
    3215, 3215, 3226, 3226, 3226, 3226, 3226, 3226, 3226, 3226, 3226, 3226, 3226, 3226, 3226, 3284, 3284, 3314, 3314, 3927, 3937, 3937,
    3937, 3937, 3937, 3937, 3961, 3972, 3972, 4150, 4150, 4150, 4150, 4180, 4188, 4188, 4188, 4188, 4188, 4188, 4188, 4188, 4188, 4188,
    4188, 4188, 4188, 4188, 4188, 4188, 4188, 4188, 4188, 4188, 4188, 4188, 4188, 4188, 4188, 4188, 4188, 4188, 4188, 4188, 4188, 4188,
    4188, 4188, 4188, 4188, 4188, 4188, 4188, 4197, 4197, 4205, 4205, 4237, 4247, 4247, 4247, 4262, 4262, 4262, 4262, 4262, 4262, 4273,
    4273, 4273, 4273, 4283, 4283, 4290, 4290, 4290, 4290, 4290, 4290, 4290, 4290, 4290, 4290, 4290, 4290, 4290, 4290, 4290, 4299, 4299,
    4299, 4299, 4299, 4299, 4299, 4299, 4299, 4299, 4299, 4299, 4299, 4299, 4299, 4299, 4299, 4299, 4299, 4299, 4299, 4299, 4299, 4310,
    4310, 4340, 4340, 4496, 4506, 4506, 4506, 4506, 4506, 4506, 4506, 4506, 4506, 5663, 5663, 5663, 5663, 5674, 5695, 5702, 5702, 5702,
    5702, 5702, 5702, 5702, 5702, 5702, 5702, 5712, 5712, 5712, 5712, 5712, 5712, 5712, 5712, 5712, 5712, 5712, 5712, 5712, 5712, 5712,
    5712, 5712, 5712, 5712, 5712, 5712, 5712, 5712, 5712, 5712, 5712, 5712, 5712, 5733, 5733, 5760, 5771, 5771, 5781, 5802, 5802, 5802,
    5802, 5802, 5802, 5834, 5834, 5845, 5891, 5891, 5899, 5931, 5964, 5981, 6047, 6047, 6047, 6047, 6047, 6047, 6047, 6047, 6047, 6047,
    6047, 6047, 6047, 6047, 6047, 6047, 6047, 6047, 6047, 6047, 6047, 6047, 6047, 6047, 6047, 6047, 6047, 6047, 6047, 6047, 6047, 6047,
    6047, 6047, 6047, 6047, 6047, 6061, 6061, 6069, 6069, 6069, 6079, 6079, 6087, 6094, 6094, 6094, 6108, 6108, 6108, 6137, 6137, 6137,
    6279, 6298, 6298, 6298, 6298, 6298, 6298, 6298, 6298, 6298, 6298, 6298, 6298, 6298, 6298, 6298, 6298, 6298, 6298, 6298, 6298, 6298,
    6298, 6298, 6298, 6298, 6298, 6298, 6298, 6313, 6313, 6313, 6313, 6313, 6313, 6313, 6313, 6313, 6313, 6313, 6313, 6313, 6313, 6313,
    6313, 6313, 6323, 6323, 6323, 6323, 6323, 6323, 6323, 6323, 6323, 6333, 6333, 6333, 6333, 6344, 6344, 6344, 6344, 6344, 6344, 6344,
    6344, 6344, 6355, 6355, 6355, 6370, 6370, 6370, 6370, 6370, 6370, 6370, 6370, 6370, 6370, 6370, 6370, 6370, 6370, 6370, 6370, 6370,
    6370, 6370, 6370, 6370, 6370, 6370, 6370, 6370, 6370, 6370, 6370, 6413, 6413, 6443, 6443, 6521, 6530, 6530, 6538, 7005, 7005, 7005,
    7005, 7005, 7005, 7033, 7033, 7033, 7050, 7069, 7069, 7086, 7086, 7086, 7086, 7086, 7086, 7086, 7086, 7086, 7086, 7086, 7086, 7086,
    7106, 7106, 7106, 7106, 7106, 7106, 7106, 7117, 7117, 7117, 7117, 7117, 7117, 7117, 7117, 7117, 7117, 7117, 7117, 7117, 7117, 7117,
    7117, 7117, 7117, 7128, 7128, 7176, 7176, 7176, 7186, 7186, 7265, 7275, 7275, 7275, 7275, 7292, 7292, 7303, 7303, 7452, 7452, 7463,
    7473, 7664, 7664, 7664, 7664, 7664, 7664, 7664, 7664, 7664, 7664, 7664, 7664, 7664, 7683, 7683, 7683, 7683, 7683, 7683, 7683, 7683,
    7683, 7683, 7694, 7713, 7713, 7713, 7713, 7713, 7713, 7713, 7713, 7713, 7713, 7713, 7713, 7713, 7713, 7728, 7728, 7758, 7758, 7758,
    7768, 7768, 7827, 7890, 7890, 7890, 7890, 7890, 7890, 7901, 7901, 7901, 7916, 7938, 7938, 7938, 7938, 7938, 7938, 7938, 7938, 7938,
    7938, 7938, 7938, 7938, 7938, 7938, 7938, 7938, 7938, 7938, 7938, 7938, 7938, 7938, 7938, 7938, 7938, 7938, 7938, 7938, 7938, 7938,
    7938, 7938, 7938, 7938, 7938, 7938, 7938, 7938, 7938, 7983, 8004, 8031, 8042, 8042, 8052, 8073, 8073, 8073, 8073, 8073, 8073, 8083,
    8177, 8198, 8404, 8404, 8414, 8425, 8436, 8453, 8453, 8453, 8453, 8453, 8453, 8453, 8453, 8453, 8464, 8464, 8464, 8464, 8464, 8464,
    8464, 8464, 8464, 8464, 8464, 8464, 8464, 8464, 8464, 8464, 8464, 8464, 8464, 8464, 8464, 8464, 8464, 8464, 8464, 8464, 8464, 8464,
    8464, 8464, 8474, 8482, 8505, 8630, 8640, 8640, 8640, 8640, 8640, 8640, 8640, 8640, 8640, 8651, 8651, 8651, 8651, 8662, 8662, 8662,
    8674, 8674, 8674, 8674, 8674, 8674, 8674, 8674, 8674, 8674, 8674, 8674, 8674, 8674, 8674, 8674, 8674, 8674, 8674, 8674, 8674, 8674,
    8674, 8674, 8674, 8674, 8674, 8674, 8674, 8674, 8674, 8674, 8674, 8674, 8674, 8674, 8674, 8674, 8674, 8684, 8684, 8695, 8705, 8705,
    8705, 8705, 8705, 8705, 8705, 8705, 8705, 8716, 8716, 8716, 8716, 8727, 8727, 8727, 8727, 8727, 8727, 8727, 8727, 8727, 8727, 8727,
    8727, 8727, 8727, 8727, 8727, 8727, 8727, 8727, 8727, 8727, 8727, 8727, 8727, 8727, 8727, 8727, 8727, 8727, 8727, 8727, 8727, 8727,
    8727, 8727, 8727, 8727, 8727, 8727, 8727, 8727, 8727, 8727, 8727, 8727, 8737, 8737, 8737, 8744, 8744, 8744, 8744, 8744, 8744, 8755,
    8755, 8755, 8755, 8766, 8766, 8766, 8766, 8766, 8766, 8766, 8766, 8775, 8775, 8775, 8775, 8775, 8775, 8775, 8775, 8784, 8784, 8784,
    8784, 8784, 8784, 8784, 8784, 8784, 8784, 8784, 8784, 8793, 8793, 8793, 8793, 8793, 8793, 8793, 8793, 8793, 8793, 8793, 8793, 8814,
    8814, 8832, 8832, 8832, 8842, 8842, 8842, 8842, 8842, 8842, 8842, 8842, 8842, 8853, 8853, 8853, 8853, 8864, 8864, 8873, 8873, 8873,
    8873, 8873, 8873, 8873, 8873, 8873, 8873, 8873, 8873, 8873, 8882, 8882, 8882, 8882, 8882, 8882, 8882, 8882, 8882, 8882, 8882, 8882,
    8882, 8882, 8882, 8882, 8882, 8882, 8882, 8882, 8882, 8882, 8882, 8882, 8882, 8893, 8893, 8912, 8921, 8950, 8959, 8959, 8959, 8959,
    8959, 8959, 8959, 8959, 8959, 8969, 8969, 8969, 8969, 8980, 8980, 8980, 8980, 8980, 8980, 8980, 8980, 8980, 8980, 8980, 8980, 8980,
    8980, 8980, 8980, 8980, 8980, 8980, 8980, 8980, 8980, 8980, 8980, 8980, 8980, 8980, 8980, 8980, 8980, 8980, 8980, 8980, 8980, 8980,
    8980, 8980, 8980, 8980, 8980, 8980, 8980, 8980, 8980, 8980, 8980, 8980, 8980, 8980, 8980, 8980, 8980, 8980, 8980, 8980, 8980, 8980,
    8980, 8980, 8980, 8980, 8980, 8980, 8980, 8980, 8980, 8980, 8980, 8980, 8980, 8980, 8980, 8980, 8980, 8980, 8980, 8980, 8980, 8980,
    8980, 8980, 8980, 8980, 8980, 8980, 8980, 8980, 8980, 8980, 8980, 8980, 8980, 8980, 8980, 8980, 8980, 8980, 8980, 8980, 8980, 8980,
    8980, 8980, 8980, 8980, 8980, 8980, 8980, 8980, 8980, 8980, 8980, 8980, 8980, 8980, 8980, 8980, 8980, 8980, 8980, 8980, 8980, 8980,
    8980, 8980, 8980, 8980, 8980, 8980, 8980, 8980, 8980, 8980, 8980, 8980, 8980, 8980, 8980, 8980, 8980, 8980, 8980, 8980, 8980, 8980,
    8980, 8980, 8980, 8980, 8980, 8980, 8980, 8980, 8980, 8980, 8980, 8980, 8980, 8980, 8980, 8980, 8980, 8980, 8980, 8980, 8980, 8980,
    8980, 8980, 8980, 8980, 8980, 8980, 8980, 8980, 8980, 8980, 8980, 8980, 8980, 8980, 8980, 8980, 8980, 8980, 8980, 8980, 8980, 8980,
    8980, 8980, 8980, 8980, 8980, 8980, 8980, 8980, 8980, 8980, 8980, 8980, 8980, 8980, 8980, 8980, 8980, 8980, 8980, 8980, 8980, 8980,
    8980, 8980, 8980, 8980, 8980, 8980, 8980, 8980, 8980, 8980, 8980, 8980, 8980, 8980, 8980, 8980, 8980, 8980, 8980, 8980, 8980, 8980,
    8980, 8980, 8980, 8980, 8980, 8980, 8980, 8980, 8980, 8980, 8980, 8980, 8980, 8980, 8980, 8980, 8980, 8980, 8980, 8980, 8980, 8980,
    8980, 8980, 8980, 8980, 8980, 8980, 8980, 8980, 8980, 8980, 8980, 8980, 8980, 8980, 8980, 8980, 8980, 8980, 8980, 8980, 8980, 8980,
    8980, 8980, 8980, 8980, 8980, 8980, 8980, 8980, 8980, 8980, 8980, 8980, 8980, 8980, 8980, 8980, 8980, 8980, 8980, 8980, 8980, 8980,
    8980, 8980, 8980, 8980, 8980, 8980, 8980, 8980, 8980, 8980, 8980, 8980, 8980, 8980, 8980, 8980, 8980, 8980, 8980, 8980, 8980, 8980,
    8980, 8980, 8980, 8980, 8980, 8980, 8980, 8980, 8980, 8980, 8980, 8980, 8980, 8980, 8980, 8980, 8980, 8980, 8980, 8980, 8980, 8980,
    8980, 8980, 8980, 8980, 8980, 8980, 8980, 8980, 8980, 8980, 8980, 8980, 8980, 8980, 8980, 8980, 8980, 8980, 8980, 8980, 8980, 8980,
    8980, 8980, 8980, 8980, 8980, 8980, 8980, 8980, 8980, 8980, 8980, 8980, 8980, 8980, 8980, 8980, 8980, 8980, 8980, 8980, 8980, 8980,
    8980, 9001, 9012, 9086, 9086, 9105, 9123, 9144, 9144, 9144, 9144, 9144, 9178, 9212, 9494, 9515, 9597, 9597, 9616, 9658, 9679, 9696,
    9696, 9721, 9721, 9721, 9721, 9721, 9721, 9721, 9721, 9721, 9721, 9721, 9721, 9721, 9721, 9721, 9721, 9721, 9731, 9731, 9731, 9731,
    9731, 9731, 9731, 9731, 9731, 9731, 9731, 9731, 9731, 9731, 9731, 9731, 9731, 9731, 9731, 9842, 9866, 9885, 9896, 9988, 9998, 9998,
    9998, 10184, 10184, 10196, 10375, 10375, 10411, 10944, 10956, 10956, 10987, 11063, 11063, 11129, 11129, 11129, 11129, 11129, 11129,
    11129, 11129, 11129, 11129, 11129, 11129, 11129, 11129, 11129, 11129, 11129, 11129, 11129, 11129, 11129, 11129, 11129, 11129, 11129,
    11129, 11129, 11129, 11129, 11129, 11129, 11129, 11129, 11129, 11129, 11129, 11129, 11129, 11245, 11245, 11322, 11331, 11394, 11404,
    11404, 11447, 11656, 11656, 11656, 11681, 11681, 11681, 11874, 11874, 11874, 11896, 11949, 11960, 12289, 12289, 12314, 12314, 12326,
    12326, 12336, 12336, 12336, 12336, 12336, 12336, 12336, 12346, 12346, 12346, 12346, 12346, 12346, 12346, 12346, 12346, 12346, 12346,
    12346, 12346, 12346, 12346, 12346, 12346, 12346, 12346, 12346, 12346, 12346, 12346, 12346, 12346, 12401, 12424, 12443, 12488, 12526,
    12548, 12548, 12570, 12712, 12721, 12721, 12745, 12745, 12745, 12939, 12939, 12939, 12977, 13018, 13050, 13072, 13072, 13085, 13085,
    13085, 13108, 13108, 13108, 13108, 13129, 13129, 13129, 13129, 13129, 13129, 13129, 13129, 13129, 13129, 13129, 13129, 13129, 13129,
    13129, 13129, 13129, 13129, 13129, 13129, 13129, 13129, 13129, 13129, 13129, 13129, 13129, 13129, 13129, 13162, 13162, 13222, 13231,
    13239, 13260, 13310, 13310, 13310, 13310, 13310, 13362, 13443, 13461, 13482, 13546, 13675, 13697, 13728, 13751, 13778, 13778, 13778,
    13832, 13832, 13832, 13832, 13832, 13832, 13832, 13832, 13832, 13832, 13832, 13832, 13832, 13832, 13832, 13832, 13832, 13832, 13832,
    13832, 13832, 13832, 13832, 13832, 13832, 13832, 13832, 13832, 13832, 13832, 13832, 13832, 13832, 13832, 13832, 13851, 13851, 13859,
    13859, 13871, 13916, 13916, 13916, 13927, 13937, 13937, 13969, 13969, 13978, 14022, 14036, 14036, 14265, 14276, 14276, 14276, 14276,
    14276, 14276, 14276, 14276, 14276, 14276, 14276, 14276, 14293, 14293, 14293, 14293, 14293, 14293, 14293, 14293, 14293, 14293, 14293,
    14293, 14293, 14293, 14293, 14293, 14293, 14293, 14293, 14293, 14293, 14293, 14293, 14293, 14293, 14293, 14293, 14293, 14334, 14345,
    14363, 14372, 14506, 14516, 14533, 14533, 14544, 14553, 14553, 14588, 14588, 14662, 14673, 14673, 14673, 14682, 14724, 14887, 14887,
    14918, 14918, 14918, 14918, 14918, 14928, 14928, 14928, 14928, 14928, 14928, 14928, 14928, 14928, 14928, 14928, 14928, 14928, 14928,
    14928, 14928, 14928, 14928, 14928, 14928, 14928, 14928, 14928, 14928, 14928, 14928, 14928, 14928, 14928, 14928, 14928, 14928, 15006,
    15016, 15026, 15026, 15077, 15087, 15087, 15087, 15087, 15087, 15115, 15115, 15115, 15115, 15200, 15200, 15200, 15200, 15234, 15234,
    15234, 15234, 15234, 15234, 15258, 15258, 15258, 15258, 15258, 15258, 15258, 15258, 15258, 15258, 15258, 15258, 15258, 15258, 15258,
    15258, 15258, 15258, 15258, 15258, 15258, 15258, 15258, 15258, 15258, 15258, 15258, 15258, 15258, 15258, 15258, 15258, 15258, 15258,
    15279, 15279, 15314, 15314, 15342, 15361, 15382, 15382, 15436, 15446, 15446, 15446, 15525, 15657, 15696, 15707, 15728, 15728, 15807,
    15826, 15853, 15853, 15853, 15853, 15853, 15853, 15853, 15853, 15853, 15853, 15853, 15853, 15853, 15853, 15853, 15853, 15853, 15853,
    15853, 15853, 15853, 15853, 15853, 15853, 15853, 15853, 15853, 15853, 15853, 15853, 15853, 15853, 15853, 15853, 15853, 15853, 15853,
    15853, 15853, 15853, 15871, 15871, 15871, 15881, 15881, 15881, 15881, 15881, 15881, 15881, 15891, 15891, 15902, 15902, 15902, 15902,
    15924, 15924, 15934, 15934, 15934, 15934, 15934, 15934, 15934, 15934, 15934, 15934, 15934, 15934, 15934, 15934, 15934, 15934, 15934,
    15934, 15934, 15934, 15934, 15934, 15934, 15934, 15934, 15934, 15934, 15934, 15934, 15934, 15934, 15934, 15934, 15934, 15934, 15934,
    15934, 15934, 15955, 15955, 15974, 15974, 15974, 15984, 15995, 16004, 16004, 16013, 16013, 16013, 16013, 16013, 16024, 16024, 16024,
    16024, 16035, 16035, 16035, 16035, 16035, 16035, 16035, 16035, 16068, 16079, 16079, 16079, 16096, 16096, 16096, 16106, 16106, 16106,
    16106, 16106, 16106, 16106, 16106, 16106, 16106, 16106, 16106, 16106, 16106, 16106, 16106, 16106, 16106, 16106, 16106, 16106, 16106,
    16106, 16106, 16106, 16367, 16446, 16495, 16565, 16988, 17022, 17039, 17084, 17084, 17093, 17093, 17149, 17188, 17262, 17514, 17534,
    17534, 17602, 17708, 17844, 17871, 17902, 17902, 17902, 17902, 17902, 17902, 17902, 17902, 17913, 17913, 17913, 17913, 17913, 17913,
    17913, 17913, 17913, 17913, 17913, 17913, 17913, 17913, 17913, 17913, 17913, 17913, 17913, 17913, 17913, 17913, 17913, 17913, 17913,
    17913, 17913, 17913, 17913, 18042, 18042, 18062, 18073, 18092, 18102, 18102, 18111, 18230, 18230, 18230, 18250, 18250, 18262, 18285,
    18293, 18293, 18293, 18316, 18316, 18348, 18348, 18348, 18348, 18348, 18348, 18348, 18348, 18348, 18348, 18348, 18348, 18383, 18383,
    18383, 18383, 18383, 18455, 18455, 18455, 18455, 18455, 18455, 18472, 18472, 18472, 18472, 18496, 18496, 18496, 18496, 18496, 18496,
    18496, 18496, 18496, 18496, 18496, 18626, 18670, 18747, 18758, 18888, 18898, 19000, 19033, 19069, 19078, 19078, 19273, 19283, 19283,
    19439, 19564, 19564, 19654, 20006, 20129, 20166, 20346, 20405, 20405, 20405, 20405, 20405, 20405, 20405, 20405, 20405, 20405, 20405,
    20405, 20405, 20405, 20405, 20405, 20405, 20405, 20405, 20405, 20405, 20405, 20413, 20413, 20413, 20413, 20413, 20413, 20413, 20413,
    20413, 20413, 20413, 20413, 20413, 20413, 20444, 20444, 20481, 20535, 20545, 20566, 20605, 20624, 20634, 20634, 20634, 20689, 20743,
    20743, 20754, 20786, 20786, 20916, 20957, 21004, 21021, 21032, 21032, 21032, 21032, 21032, 21032, 21032, 21032, 21032, 21032, 21032,
    21032, 21032, 21032, 21032, 21032, 21032, 21032, 21032, 21032, 21032, 21032, 21032, 21032, 21032, 21032, 21032, 21032, 21032, 21032,
    21032, 21032, 21032, 21032, 21032, 21032, 21032, 21105, 21105, 21113, 21113, 21168, 21178, 21178, 21218, 21248, 21248, 21248, 21413,
    21420, 21420, 21464, 21464, 21464, 21777, 21796, 21796, 21808, 21808, 21808, 21808, 21808, 21808, 21808, 21808, 21808, 21808, 21808,
    21808, 21808, 21808, 21808, 21808, 21808, 21808, 21808, 21808, 21808, 21808, 21808, 21808, 21808, 21808, 21808, 21808, 21808, 21808,
    21808, 21808, 21808, 21808, 21808, 21808, 21808, 21808, 21808, 21808, 21808, 21808, 21808, 21818, 21818, 21818, 21828, 21828, 21828,
    21828, 21828, 21828, 21839, 21851, 21851, 21851, 21862, 21862, 21929, 21929, 21929, 21929, 21929, 21929, 21962, 21973, 21973, 21973,
    21973, 21973, 21973, 21983, 21983, 21983, 21983, 21983, 21983, 21983, 21983, 21983, 21983, 21983, 21983, 21983, 21983, 21983, 21983,
    21983, 21983, 21983, 21983, 21983, 21983, 21983, 21983, 21983, 22273, 22352, 22401, 22457, 22530, 22564, 22564, 22615, 22828, 22828,
    22828, 22859, 22887, 22898, 22978, 23012, 23012, 23023, 23086, 23156, 23169, 23169, 23169, 23177, 23177, 23177, 23177, 23177, 23177,
    23177, 23177, 23177, 23177, 23177, 23177, 23177, 23177, 23177, 23177, 23177, 23177, 23177, 23177, 23177, 23177, 23177, 23177, 23177,
    23177, 23177, 23177, 23177, 23177, 23177, 23177, 23177, 23177, 23177, 23188, 23199, 23344, 23376, 23495, 23517, 23517, 23596, 23749,
    23749, 23749, 23760, 23859, 23859, 23910, 23947, 24148, 24159, 24206, 24273, 24941, 24941, 25000, 25000, 25000, 25019, 25019, 25019,
    25019, 25019, 25019, 25019, 25019, 25019, 25019, 25019, 25019, 25019, 25019, 25019, 25019, 25019, 25019, 25019, 25019, 25019, 25019,
    25019, 25019, 25019, 25019, 25019, 25019, 25019, 25019, 25019, 25019, 25019, 25039, 25049, 25079, 25089, 25101, 25111, 25111, 25257,
    25334, 25334, 25334, 25334, 25334, 25334, 25411, 25423, 25423, 25646, 25687, 25687, 25687, 25687, 25743, 25743, 25743, 25743, 25753,
    25753, 25753, 25753, 25753, 25753, 25753, 25763, 25763, 25763, 25763, 25763, 25763, 25763, 25763, 25763, 25763, 25763, 25763, 25763,
    25763, 25763, 25763, 25763, 25763, 25763, 25763, 25763, 25763, 25763, 25763, 25763, 25794, 25815, 25842, 25875, 25875, 25897, 25918,
    25951, 25951, 25951, 25951, 26000, 26025, 26025, 26046, 26173, 26173, 26232, 26243, 26286, 26314, 26314, 26327, 26327, 26327, 26327,
    26337, 26358, 26358, 26369, 26369, 26369, 26369, 26369, 26369, 26369, 26369, 26369, 26369, 26369, 26369, 26369, 26369, 26369, 26369,
    26369, 26369, 26369, 26369, 26369, 26369, 26369, 26369, 26369, 26369, 26369, 26369, 26369, 26637, 26637, 26645, 26656, 26718, 26728,
    26728, 26728, 26728, 26728, 26728, 26739, 26739, 26767, 26778, 26789, 26789, 26800, 26871, 26871, 26871, 26871, 26871, 26871, 26871,
    26884, 26884, 26884, 26884, 26884, 26884, 26884, 26884, 26884, 26884, 26884, 26884, 26884, 26884, 26884, 26884, 26884, 26884, 26884,
    26884, 26884, 26884, 26884, 26884, 26884, 26884, 26884, 26884, 26884, 26884, 26884, 26884, 26884, 26884, 26884, 26894, 26894, 26941,
    26951, 26951, 26951, 26951, 26951, 26951, 26951, 26951, 26951, 26962, 26970, 26970, 26990, 27001, 27001, 27001, 27001, 27001, 27001,
    27001, 27001, 27001, 27001, 27001, 27001, 27001, 27001, 27001, 27001, 27001, 27001, 27001, 27001, 27001, 27001, 27001, 27001, 27001,
    27001, 27001, 27001, 27001, 27001, 27001, 27001, 27001, 27001, 27001, 27001, 27001, 27001, 27001, 27001, 27001, 27001, 27032, 27043,
    27043, 27053, 27053, 27075, 27082, 27082, 27082, 27104, 27114, 27124, 27170, 27170, 27170, 27192, 27215, 27215, 27238, 27248, 27260,
    27260, 27260, 27260, 27260, 27260, 27260, 27260, 27260, 27260, 27260, 27260, 27260, 27260, 27260, 27260, 27260, 27260, 27260, 27260,
    27260, 27260, 27260, 27260, 27260, 27260, 27260, 27260, 27260, 27260, 27260, 27260, 27260, 27260, 27260, 27260, 27290, 27290, 27308,
    27308, 27323, 27333, 27333, 27333, 27342, 27342, 27342, 27342, 27342, 27342, 27353, 27353, 27353, 27353, 27364, 27364, 27390, 27390,
    27390, 27390, 27390, 27390, 27390, 27390, 27390, 27390, 27390, 27390, 27390, 27390, 27390, 27390, 27390, 27390, 27390, 27390, 27390,
    27390, 27390, 27390, 27390, 27390, 27390, 27390, 27390, 27390, 27390, 27390, 27390, 27390, 27390, 27390, 27390, 27390, 27401, 27401,
    27420, 27429, 27450, 27460, 27460, 27469, 27482, 27482, 27482, 27482, 27482, 27482, 27493, 27493, 27493, 27493, 27504, 27504, 27504,
    27504, 27523, 27523, 27523, 27523,
];
