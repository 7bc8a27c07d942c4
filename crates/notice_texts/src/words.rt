// What tags in names of files stand for.

/// On each line a word with which names of licences begin, and the words that stand for them in names of files, itself
/// among them. A word of the GPL stands for the LGPL too, whose third version is an addition to it.
pub(crate) const NICKNAMES: &str = "\
mit expat mit-license
apache apache2 apache-2 apache2.0 apachev2 asl asl2 asl-2.0 al2
bsd bsd2 bsd3 bsd-2 bsd-3 2bsd 3bsd bsd2clause bsd3clause
0bsd bsd-0 bsd0 bsd zerobsd
isc
zlib
bsl boost boost-1.0
unlicense
cc0 cc-0
mpl mpl2 mplv2 mpl-2 mpl2.0
gpl gpl2 gpl3 gplv2 gplv3 gpl-2 gpl-3 gpl-2.0 gpl-3.0
lgpl lgpl2 lgpl3 lgplv2 lgplv3 lgpl-2 lgpl-3 lgpl2.1 lgplv2.1 lgpl-2.1 lgpl-3.0 lesser lib gpl gpl2 gpl3 gplv2 gplv3 gpl-2 \
gpl-3 gpl-2.0 gpl-3.0
agpl agpl3 agplv3 agpl-3 agpl-3.0
llvm apache-2.0_with_llvm-exception apache-2.0-with-llvm-exception apache-llvm
epl epl2 epl-2
unicode
ofl
wtfpl
psf
python
artistic";
